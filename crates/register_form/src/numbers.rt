//! What the types of a register's parts say of names and numbers. These functions do nothing, and are here
//! for the proofs alone.
ghost use Rattle.std.specs.Prelude.{◌<◌, ◌^◌};
ghost use Rattle.std.specs.List.{AllByRecursion};
ghost use Rattle.register_form.specs.Numbers.{ArrayIsNumbered, CallIsNumbered, FieldIsNumbered, RegisterIsNumbered};

use crate::register::{Field, FieldArray, Register};
use frag_tree::NumberCall;

fn number(number: u64)
    ensures { number < 2 ^ 64 }
{
    let _ = number;
}

fn call_numbers(call: &NumberCall)
    ensures { CallIsNumbered call.now }
{
    let _name = call.name.bytes();
    number(call.value);
}

fn calls_numbers(calls: &[NumberCall])
    ensures { AllByRecursion CallIsNumbered calls.now }
{
    for call in calls {
        call_numbers(call);
    }
}

fn array_numbers(array: Option<FieldArray>)
    ensures { ArrayIsNumbered array }
{
    if let Some(array) = array {
        number(array.count);
        number(array.step);
    }
}

fn field_numbers(field: &Field)
    ensures { FieldIsNumbered field.now }
{
    let _name = field.name.bytes();
    let _marker = field.marker.bytes();
    number(field.offset);
    number(field.bits);
    array_numbers(field.array);
    calls_numbers(field.tests.as_slice());
    calls_numbers(field.sets.as_slice());
}

fn fields_numbers(fields: &[Field])
    ensures { AllByRecursion FieldIsNumbered fields.now }
{
    for field in fields {
        field_numbers(field);
    }
}

pub(crate) fn register_numbers(register: &Register)
    ensures { RegisterIsNumbered register.now }
{
    let _name = register.name.bytes();
    number(register.reset);
    number(register.one);
    number(register.zero);
    fields_numbers(register.fields.as_slice());
}
