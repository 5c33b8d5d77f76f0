ghost use Rattle.std.specs.Prelude.{◌≡◌, IfOk};
ghost use Rattle.std.specs.List.{AllByRecursion};
ghost use Rattle.register_form.specs.Fields.{HasBits};
ghost use Rattle.register_form.specs.Forms.{constant, form_of, markers_of, masks_of, readers_among, values_among, where_true, writers_among};
ghost use Rattle.register_form.specs.Numbers.{IsValid};

use crate::field::{reader, writer};
use crate::field_values::push_values;
use crate::numbers::register_numbers;
use crate::register::{Field, Register};
use frag_tree::{Constant, Identifier, Reader, RegisterModule, Values, Writable, Writer};
use pac_base::{NoMemory, Seq, Width};
use std::alloc::Global;

fn markers(alloc: Global, fields: &[Field]) -> Result<Seq<Identifier>, NoMemory>
    ensures { IfOk result (λ made. made ≡ markers_of fields.now) }
{
    let mut made = Seq::new(alloc);
    for field in fields {
        made.push(field.marker.copy()?)?;
    }
    Ok(made)
}

fn readers(alloc: Global, fields: &[Field]) -> Result<Seq<Reader>, NoMemory>
    requires { AllByRecursion HasBits fields.now }
    ensures { IfOk result (λ made. made ≡ readers_among fields.now) }
{
    let mut made = Seq::new(alloc);
    for field in fields {
        if field.readable {
            made.push(reader(field)?)?;
        }
    }
    Ok(made)
}

fn writers(alloc: Global, fields: &[Field]) -> Result<Seq<Writer>, NoMemory>
    ensures { IfOk result (λ made. made ≡ writers_among fields.now) }
{
    let mut made = Seq::new(alloc);
    for field in fields {
        if field.writable {
            made.push(writer(field)?)?;
        }
    }
    Ok(made)
}

fn values(alloc: Global, fields: &[Field]) -> Result<Seq<Values>, NoMemory>
    ensures { IfOk result (λ made. made ≡ values_among fields.now) }
{
    let mut made = Seq::new(alloc);
    for field in fields {
        push_values(alloc, &mut made, field)?;
    }
    Ok(made)
}

fn constant(width: Width, value: u64) -> Constant
    ensures { result ≡ constant width value }
{
    Constant { width, value }
}

fn masks(register: &Register) -> Writable
    ensures { result ≡ masks_of register.now }
{
    Writable {
        zero_to_modify: constant(register.word, register.zero),
        one_to_modify: constant(register.word, register.one),
    }
}

fn readers_where(alloc: Global, register: &Register) -> Result<Option<Seq<Reader>>, NoMemory>
    requires { AllByRecursion HasBits register.now.fields }
    ensures { IfOk result (λ made. made ≡ where_true register.now.readable (readers_among register.now.fields)) }
{
    if !register.readable {
        return Ok(None);
    }
    Ok(Some(readers(alloc, register.fields.as_slice())?))
}

fn writers_where(alloc: Global, register: &Register) -> Result<Option<Seq<Writer>>, NoMemory>
    ensures { IfOk result (λ made. made ≡ where_true register.now.writable (writers_among register.now.fields)) }
{
    if !register.writable {
        return Ok(None);
    }
    Ok(Some(writers(alloc, register.fields.as_slice())?))
}

fn module(alloc: Global, register: &Register) -> Result<RegisterModule, NoMemory>
    requires { AllByRecursion HasBits register.now.fields }
    ensures { IfOk result (λ made. made ≡ form_of register.now) }
{
    let fields = register.fields.as_slice();
    Ok(RegisterModule {
        name: register.name.copy()?,
        word: register.word,
        readable: register.readable,
        writable: register.writable.then_some(masks(register)),
        reset: constant(register.word, register.reset),
        markers: markers(alloc, fields)?,
        readers: readers_where(alloc, register)?,
        writers: writers_where(alloc, register)?,
        values: values(alloc, fields)?,
    })
}

/// The module of a register, of which each field has 1 to 64 bits.
pub fn register_form(alloc: Global, register: &Register) -> Result<RegisterModule, NoMemory>
    requires bits { AllByRecursion HasBits register.now.fields }
    ensures form { IfOk result (λ made. made ≡ form_of register.now) }
    ensures valid { IfOk result (IsValid register.now) }
{
    register_numbers(register);
    let made = module(alloc, register)?;
    Ok(made)
}
