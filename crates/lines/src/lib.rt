// Lines in and out: where the first line of an input ends; the line that an answer prints, with its newline.
#![tactic(auto)]

ghost use Rattle.std.specs.Prelude.{◌≡◌, ◌∷◌, ◌++◌, ◌+◌, ◌≤◌, ◌%◌, length, drop};
ghost use Rattle.protocol.specs.Lines.{newline, printed_digit, hexadecimal, letter, line};
ghost use Rattle.lines.specs.LineEnd.{line_end};

use protocol::{Answer, Rule};

// How many bytes stand before the first newline.
pub fn line_end(input: &[u8]) -> usize
    ensures { result ≡ line_end input.now }
{
    input
        .iter()
        .position(|b| *b == b'\n')
        .unwrap_or(input.len())
}

// The last hexadecimal digit of a number.
fn digit(n: u32) -> u8
    ensures { result ≡ printed_digit (n % 16) }
{
    let d = (n % 16) as u8;
    if d < 10 { b'0' + d } else { b'A' + d - 10 }
}

// The letter of a rule.
fn letter(r: Rule) -> u8
    ensures { result ≡ letter r }
{
    match r {
        Rule::AskFound => b'A',
        Rule::AskWorked => b'B',
        Rule::AskNew => b'C',
        Rule::GrantDropped => b'D',
        Rule::GrantOld => b'E',
        Rule::GrantReceived => b'F',
        Rule::GrantNew => b'G',
        Rule::DataFilled => b'H',
        Rule::DataDropped => b'I',
        Rule::Other => b'J',
    }
}

// The last hexadecimal digits of a number, as many as there is room for. The place and what is left of the number fall together.
fn hexadecimal(out: &mut [u8], n: u32)
    ensures { out.new ≡ hexadecimal (length out.old) n }
{
    let mut rest = n;
    for i in (0..out.len()).rev() {
        out[i] = digit(rest);
        rest /= 16;
    }
}

// Puts bytes to the front of a buffer; how many they are.
fn put(out: &mut [u8], bytes: &[u8]) -> usize
    requires { length bytes.now ≤ length out.old }
    ensures count { result ≡ length bytes.now }
    ensures bytes { out.new ≡ bytes.now ++ drop result out.old }
{
    out[..bytes.len()].copy_from_slice(bytes);
    bytes.len()
}

// Writes the line to the front of a buffer; how many bytes it has. Not by `write!`, which says what it wrote of a `String` alone: there is no
// heap here.
pub fn print(out: &mut [u8], a: Answer) -> usize
    requires { 16 ≤ length out.old }
    ensures count { result ≡ length (line a) + 1 }
    ensures bytes { out.new ≡ line a ++ (newline ∷ drop result out.old) }
{
    match a {
        Answer::Accepted(r) => put(out, &[b'0', b'0', letter(r), b'\n']),
        Answer::Lost => put(out, b"FF\n"),
        Answer::Refused(n) => put(out, &[b'0' + n / 10 % 10, b'0' + n % 10, b'\n']),
        Answer::Shown { height, state } => {
            let mut shown = [b'0'; 16];
            hexadecimal(&mut shown[2..6], height as u32);
            hexadecimal(&mut shown[6..14], state);
            shown[14] = letter(Rule::Other);
            shown[15] = b'\n';
            put(out, &shown)
        }
    }
}
