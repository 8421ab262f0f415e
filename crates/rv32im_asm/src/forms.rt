//! The forms of operands.

ghost use Rattle.std.specs.Prelude.{◌≡◌, ◌<◌, option_map, IfSome};
ghost use Rattle.rv32im_asm.specs.Lines.{operands_in};
ghost use Rattle.rv32im_asm.specs.Operands.{label_operand, number_in, plain as plain_value, value_in as wanted_in};
ghost use Rattle.rv32im_asm.specs.Private.Forms.{found_in, found_of};
ghost use Rattle.rv32im_asm.specs.Statements.{value_of};
ghost use Rattle.rv32im_asm.specs.declared.statements.Form.TheVariants as forms;

use crate::cutting::is_name;
use crate::lines::{one, three, two};
use crate::numbers::{number, place};
use crate::statements::{Form, Operands, Value, Wanted};
use flow_base::register_named;

/// The value of a number that is given.
pub fn plain(number: i64) -> Value<'static>
    ensures { value_of result ≡ plain_value number }
{
    Value {
        number,
        label: None,
    }
}

fn label_value<'a>(text: &'a [u8]) -> Option<Value<'a>>
    ensures { option_map value_of result ≡ label_operand text.entry.now }
{
    if is_name(text) {
        Some(Value {
            number: 0,
            label: Some(text),
        })
    } else {
        None
    }
}

fn number_value<'a>(text: &'a [u8]) -> Option<Value<'a>>
    ensures { option_map value_of result ≡ number_in text.entry.now }
{
    let number = number(text)?;
    Some(Value {
        number,
        label: None,
    })
}

/// The value that a text is.
fn value<'a>(wanted: Wanted, text: &'a [u8]) -> Option<Value<'a>>
    ensures { option_map value_of result ≡ wanted_in wanted text.entry.now }
{
    match wanted {
        Wanted::Number => number_value(text),
        Wanted::Label => label_value(text),
        Wanted::Target => if is_name(text) {
            label_value(text)
        } else {
            number_value(text)
        },
    }
}

/// No operand.
fn no_operand<'a>(text: &'a [u8]) -> Option<Operands<'a>>
    ensures exact { option_map found_of result ≡ found_in forms.Nothing (operands_in text.entry.now) }
    ensures below { IfSome result (λ found. (found.first < 32) × (found.second < 32) × (found.third < 32)) }
{
    if text.is_empty() {
        Some(Operands {
            first: 0,
            second: 0,
            third: 0,
            value: plain(0),
        })
    } else {
        None
    }
}

/// Three registers.
fn three_registers<'a>(text: &'a [u8]) -> Option<Operands<'a>>
    ensures exact { option_map found_of result ≡ found_in forms.ThreeRegisters (operands_in text.entry.now) }
    ensures below { IfSome result (λ found. (found.first < 32) × (found.second < 32) × (found.third < 32)) }
{
    let (first, second, third) = three(text)?;
    let first = register_named(first)?;
    let second = register_named(second)?;
    let third = register_named(third)?;
    Some(Operands {
        first,
        second,
        third,
        value: plain(0),
    })
}

/// Two registers.
fn two_registers<'a>(text: &'a [u8]) -> Option<Operands<'a>>
    ensures exact { option_map found_of result ≡ found_in forms.TwoRegisters (operands_in text.entry.now) }
    ensures below { IfSome result (λ found. (found.first < 32) × (found.second < 32) × (found.third < 32)) }
{
    let (first, second) = two(text)?;
    let first = register_named(first)?;
    let second = register_named(second)?;
    Some(Operands {
        first,
        second,
        third: 0,
        value: plain(0),
    })
}

/// Two registers and a value.
fn registers_and<'a>(wanted: Wanted, text: &'a [u8]) -> Option<Operands<'a>>
    ensures exact { option_map found_of result ≡ found_in (forms.Registers wanted) (operands_in text.entry.now) }
    ensures below { IfSome result (λ found. (found.first < 32) × (found.second < 32) × (found.third < 32)) }
{
    let (first, second, third) = three(text)?;
    let first = register_named(first)?;
    let second = register_named(second)?;
    let value = value(wanted, third)?;
    Some(Operands {
        first,
        second,
        third: 0,
        value,
    })
}

/// A register and a value.
fn register_and<'a>(wanted: Wanted, text: &'a [u8]) -> Option<Operands<'a>>
    ensures exact { option_map found_of result ≡ found_in (forms.Register wanted) (operands_in text.entry.now) }
    ensures below { IfSome result (λ found. (found.first < 32) × (found.second < 32) × (found.third < 32)) }
{
    let (first, second) = two(text)?;
    let first = register_named(first)?;
    let value = value(wanted, second)?;
    Some(Operands {
        first,
        second: 0,
        third: 0,
        value,
    })
}

/// A register, and a number with a register in parentheses.
fn register_and_place<'a>(text: &'a [u8]) -> Option<Operands<'a>>
    ensures exact { option_map found_of result ≡ found_in forms.Place (operands_in text.entry.now) }
    ensures below { IfSome result (λ found. (found.first < 32) × (found.second < 32) × (found.third < 32)) }
{
    let (first, second) = two(text)?;
    let first = register_named(first)?;
    let (number, base) = place(second)?;
    Some(Operands {
        first,
        second: base,
        third: 0,
        value: plain(number),
    })
}

/// A value alone.
fn one_value<'a>(wanted: Wanted, text: &'a [u8]) -> Option<Operands<'a>>
    ensures exact { option_map found_of result ≡ found_in (forms.Value wanted) (operands_in text.entry.now) }
    ensures below { IfSome result (λ found. (found.first < 32) × (found.second < 32) × (found.third < 32)) }
{
    let value = value(wanted, one(text)?)?;
    Some(Operands {
        first: 0,
        second: 0,
        third: 0,
        value,
    })
}

/// The operands of a form; None where they are not of it.
pub fn operands<'a>(form: Form, text: &'a [u8]) -> Option<Operands<'a>>
    ensures exact { option_map found_of result ≡ found_in form (operands_in text.entry.now) }
    ensures below { IfSome result (λ found. (found.first < 32) × (found.second < 32) × (found.third < 32)) }
{
    match form {
        Form::Nothing => no_operand(text),
        Form::ThreeRegisters => three_registers(text),
        Form::TwoRegisters => two_registers(text),
        Form::Registers(wanted) => registers_and(wanted, text),
        Form::Register(wanted) => register_and(wanted, text),
        Form::Place => register_and_place(text),
        Form::Value(wanted) => one_value(wanted, text),
    }
}
