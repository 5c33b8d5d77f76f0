ghost use Rattle.patch_settings.specs.Setting.{SettingKeepsElements};

/// What is said of each element of a description holds of those in which a patch sets keys.
pub fn setting_law()
    ensures { SettingKeepsElements }
{}
