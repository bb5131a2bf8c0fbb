//! The script of a demonstration, from a generator of numbers.

ghost use Rattle.std.specs.Prelude.{◌≡◌, ◌<◌, ◌≤◌, ◌∷◌, ◌++◌, [], flat_map, pos, IfOk, OnOk};
ghost use Rattle.fixed_word.specs.Decimal.{natural_text};
ghost use Rattle.fixed_script.specs.Text.{SetTo, line_text, register_text};
ghost use Rattle.fixed_machine.specs.Answers.{ended};
ghost use Rattle.fixed_calc.specs.Demo.{demo_text, drawn_line};
ghost use Rattle.fixed_calc.specs.inside.Draws.{next_state};
ghost use Rattle.fixed_calc.specs.CommandLine.{most_lines};

use fixed_digits::decimal_into;
use std::alloc::{AllocError, Global};
use std::marker::Model;

/// The bytes of a script. Contracts see them as a list of bytes.
#[derive(Drop)]
pub struct Script {
    bytes: Vec<u8>,
}

impl Model for Script {
    ghost use Rattle.std.specs.Prelude.{List, ℕ};

    ghost Value = { List ℕ };

    ghost view = { λ s. s.bytes.items };
}

impl Script {
    /// Returns a script of these bytes. This does not allocate.
    pub fn new(bytes: Vec<u8>) -> Script
        ensures { result ≡ bytes.items }
    {
        Script { bytes }
    }

    /// Returns the bytes.
    pub fn as_bytes(&self) -> &[u8]
        ensures { result.now ≡ self.now }
    {
        &self.bytes
    }

    /// Turns the script into its bytes. This does not allocate.
    pub fn into_bytes(self) -> Vec<u8>
        ensures { result.items ≡ self }
    {
        self.bytes
    }
}

/// Returns the next state.
fn next(state: u64) -> u64
    ensures { result ≡ next_state state }
{
    state
        .wrapping_mul(6_364_136_223_846_793_005)
        .wrapping_add(1_442_695_040_888_963_407)
}

/// Adds the decimal of a number. Fails if memory runs out.
fn push_number(script: &mut Vec<u8>, number: u64) -> Result<(), AllocError>
    ensures { OnOk result (script.new.items ≡ script.old.items ++ natural_text number) }
{
    let mut buffer = [0; 20];
    let start = decimal_into(number, &mut buffer);
    script.extend_from_slice(&buffer[start..])
}

/// Adds the name of a register of one digit. Fails if memory runs out.
#[tactic(auto, using(fixed_digits::proofs::Shown::one_digit))]
fn push_register(script: &mut Vec<u8>, register: u64) -> Result<(), AllocError>
    requires { register < 10 }
    ensures { OnOk result (script.new.items ≡ script.old.items ++ register_text register) }
{
    script.extend_from_slice(&[b'r', b'0' + register as u8])
}

/// Adds a line that sets a register of one digit, and its newline. Fails if memory runs out.
fn push_set(script: &mut Vec<u8>, dest: u64, number: u64) -> Result<(), AllocError>
    requires { dest < 10 }
    ensures { OnOk result (script.new.items
        ≡ script.old.items ++ ended (line_text (SetTo dest (pos number)))) }
{
    push_register(script, dest)?;
    script.extend_from_slice(b" set ")?;
    push_number(script, number)?;
    script.extend_from_slice(b"\n")
}

/// Adds the start of a line: its destination, and the names of its policy and operation, each after a space. The
/// destination has one digit, as have all registers. Fails if memory runs out.
fn push_names(script: &mut Vec<u8>, dest: u64, names: &[u8]) -> Result<(), AllocError>
    requires { dest < 10 }
    ensures { OnOk result (script.new.items ≡ script.old.items ++ register_text dest ++ names.now) }
{
    push_register(script, dest)?;
    script.extend_from_slice(names)
}

/// Adds a line that applies an operation to one register, and its newline. Fails if memory runs out.
#[tactic(auto, using(fixed_digits::proofs::Shown::one_digit))]
fn push_unary(script: &mut Vec<u8>, dest: u64, names: &[u8], a: u64) -> Result<(), AllocError>
    requires dest { dest < 10 }
    requires a { a < 10 }
    ensures { OnOk result (script.new.items ≡ script.old.items
        ++ register_text dest ++ names.now ++ ended (flat_map (λ operand. 32 ∷ register_text operand) (a ∷ []))) }
{
    push_names(script, dest, names)?;
    script.extend_from_slice(&[b' ', b'r', b'0' + a as u8, b'\n'])
}

/// Does the same for two registers.
#[tactic(auto, using(fixed_digits::proofs::Shown::one_digit))]
fn push_binary(
    script: &mut Vec<u8>,
    dest: u64,
    names: &[u8],
    a: u64,
    b: u64,
) -> Result<(), AllocError>
    requires dest { dest < 10 }
    requires a { a < 10 }
    requires b { b < 10 }
    ensures { OnOk result (script.new.items ≡ script.old.items
        ++ register_text dest ++ names.now ++ ended (flat_map (λ operand. 32 ∷ register_text operand) (a ∷ b ∷ []))) }
{
    push_names(script, dest, names)?;
    let (a, b) = (b'0' + a as u8, b'0' + b as u8);
    script.extend_from_slice(&[b' ', b'r', a, b' ', b'r', b, b'\n'])
}

/// Does the same for three registers.
#[tactic(auto, using(fixed_digits::proofs::Shown::one_digit))]
fn push_ternary(
    script: &mut Vec<u8>,
    dest: u64,
    names: &[u8],
    a: u64,
    b: u64,
    c: u64,
) -> Result<(), AllocError>
    requires dest { dest < 10 }
    requires a { a < 10 }
    requires b { b < 10 }
    requires c { c < 10 }
    ensures { OnOk result (script.new.items ≡ script.old.items
        ++ register_text dest ++ names.now ++ ended (flat_map (λ operand. 32 ∷ register_text operand) (a ∷ b ∷ c ∷ []))) }
{
    push_names(script, dest, names)?;
    let (a, b, c) = (b'0' + a as u8, b'0' + b as u8, b'0' + c as u8);
    script.extend_from_slice(&[b' ', b'r', a, b' ', b'r', b, b' ', b'r', c, b'\n'])
}

/// Adds the line of a draw, and its newline. Fails if memory runs out.
fn push_line(script: &mut Vec<u8>, draw: u64) -> Result<(), AllocError>
    ensures { OnOk result (script.new.items ≡ script.old.items ++ ended (line_text (drawn_line draw))) }
{
    let dest = draw % 8;
    let a = draw / 8 % 8;
    let b = draw / 64 % 8;
    match draw / 512 % 8 {
        0 => push_set(script, dest, draw),
        1 => push_binary(script, dest, b" wrapping add", a, b),
        2 => push_binary(script, dest, b" overflowing sub", a, b),
        3 => push_binary(script, dest, b" saturating mul", a, b),
        4 => push_binary(script, dest, b" checked div", a, b),
        5 => push_ternary(script, dest, b" wrapping mul_add", a, b, dest),
        6 => push_ternary(script, dest, b" overflowing add_prod", dest, a, b),
        _ => push_unary(script, dest, b" checked sqrt", a),
    }
}

/// Returns the script of a demonstration: a header of eight registers of 64 bits with 32 fraction bits, and `lines`
/// lines that a generator of numbers draws. Fails if memory runs out. Precondition: `lines` is from 1 to 1,000,000.
pub fn demo_script(alloc: Global, lines: u32) -> Result<Script, AllocError>
    requires some { 1 ≤ lines }
    requires most { lines ≤ most_lines }
    ensures { IfOk result (λ script. script ≡ demo_text lines) }
{
    let mut bytes = Vec::new(alloc);
    bytes.extend_from_slice(b"i64 32 32 32 32 32 32 32 32\n")?;
    let mut state = 1;
    for _i in 0..lines {
        state = next(state);
        push_line(&mut bytes, state >> 33)?;
    }
    Ok(Script { bytes })
}
