ghost use Rattle.std.specs.Prelude.{◌≡◌, Some};
ghost use Rattle.pac_cli.specs.Inputs.{source_files};
ghost use Rattle.pac_cli.specs.Resolving.{FitsLimits, bytes_from, bytes_in, policy_of};
ghost use Rattle.pac_inputs.specs.Gathering.{FitLimits};

use overlap_check::Policy;
use pac_io::Bytes;
use pac_words::Source;

/// The bytes of the files that a description comes from, and which faults are asked for.
#[derive(Clone, Copy)]
pub(crate) struct Description<'a> {
    /// The description.
    pub(crate) svd: &'a [u8],
    /// The patch to it, where there is one.
    pub(crate) patch: Option<&'a [u8]>,
    /// Whether overlaps are refused.
    pub(crate) policy: Policy,
}

/// The description that the words name, of which these are the files: the second is its patch.
pub(crate) fn described<'a>(source: &Source, files: &'a [Bytes]) -> Description<'a>
    requires { FitLimits (source_files source.now) files.now }
    ensures files { bytes_from source.now files.entry.now ≡ Some (bytes_in result) }
    ensures limits { FitsLimits (bytes_in result) }
{
    match files {
        [svd] => Description {
            svd: svd.as_slice(),
            patch: None,
            policy: policy_of(source),
        },
        [svd, patch] => Description {
            svd: svd.as_slice(),
            patch: Some(patch.as_slice()),
            policy: policy_of(source),
        },
        _ => unreachable!(),
    }
}

/// Which faults are asked for: overlaps too where the words say so.
fn policy_of(source: &Source) -> Policy
    ensures { result ≡ policy_of source.now }
{
    if source.strict {
        Policy::Strict
    } else {
        Policy::Loose
    }
}
