// Draws a solid from lines of edits: a reply to each line, and then the listing of the solid.
#![tactic(auto)]

ghost use Rattle.std.specs.Prelude.{◌≡◌, ◌≤◌, length, take, Some, IfOk, string_bytes};
ghost use Rattle.boundary.specs.Operators.{empty};
ghost use Rattle.words.specs.Words.{lines, tokens};
ghost use Rattle.words.specs.Left.{tokens_left, part};
ghost use Rattle.drawing.specs.declared.Fault.TheVariants.{Refused};
ghost use Rattle.drawing.specs.Commands.{operator, numbers, edit, asked};
ghost use Rattle.drawing.specs.Drawing.{code, done, left, line_reply, after_line, shown, drawn_from, drawn};

use boundary::{Edit, Point, Refusal};
use solid::Solid;
use std::alloc::{AllocError, Global};
use std::fmt;
use words::{Line, Lines, Token};

// Only so many bytes of an input are looked at.
pub const LIMIT: usize = 32768;

#[derive(Clone, Copy)]
enum Operator {
    Mvfs,
    Kvfs,
    Mev,
    Kev,
    Mef,
    Kef,
    Kemr,
    Mekr,
    Kfmrh,
    Move,
}

// Why a line is not done.
#[derive(Clone, Copy)]
enum Fault {
    UnknownOperator,
    WrongArguments,
    Refused(Refusal),
}

// What a user is told of a line.
#[derive(Clone, Copy)]
struct Reply {
    line: usize,
    done: Result<(), Fault>,
}

impl From<Refusal> for Fault {
    ghost from_gives = { λ why f. f ≡ Refused why };

    fn from(why: Refusal) -> Fault {
        Fault::Refused(why)
    }
}

impl Fault {
    // The number by which a user is told of it.
    fn number(self) -> u8
        ensures { result ≡ code self }
    {
        match self {
            Fault::UnknownOperator => 40,
            Fault::WrongArguments => 41,
            Fault::Refused(why) => why.number(),
        }
    }
}

impl fmt::Display for Reply {
    ghost output = { λ r. Some (shown r) };

    fn fmt<W: fmt::Write>(&self, f: &mut fmt::Formatter<W>) -> fmt::Result {
        match self.done {
            Ok(()) => writeln!(f, "ok"),
            Err(fault) => writeln!(f, "no {} {}", fault.number(), self.line),
        }
    }
}

// The next N numbers of a line, if no more and nothing else is left.
fn numbers<const N: usize>(rest: &mut Line<'_>) -> Option<[i32; N]>
    ensures { result ≡ numbers N (tokens_left rest.old) }
{
    let mut all = [0; N];
    for number in &mut all {
        let Token::Number { value, .. } = rest.next()? else {
            return None;
        };
        *number = value;
    }
    rest.next().is_none().then_some(all)
}

impl Operator {
    // The operator of a name.
    fn named(name: &[u8]) -> Option<Operator>
        ensures { result ≡ operator name.now }
    {
        match name {
            b"mvfs" => Some(Operator::Mvfs),
            b"kvfs" => Some(Operator::Kvfs),
            b"mev" => Some(Operator::Mev),
            b"kev" => Some(Operator::Kev),
            b"mef" => Some(Operator::Mef),
            b"kef" => Some(Operator::Kef),
            b"kemr" => Some(Operator::Kemr),
            b"mekr" => Some(Operator::Mekr),
            b"kfmrh" => Some(Operator::Kfmrh),
            b"move" => Some(Operator::Move),
            _ => None,
        }
    }

    // The edit that the rest of a line asks for: the numbers of its fields in their order, and then x, y and z.
    fn edit(self, rest: &mut Line<'_>) -> Option<Edit>
        ensures { result ≡ edit self (tokens_left rest.old) }
    {
        Some(match self {
            Operator::Mvfs => {
                let [shell, face, outer, vertex, x, y, z] = numbers::<7>(rest)?;
                let at = Point { x, y, z };
                Edit::Mvfs {
                    shell,
                    face,
                    outer,
                    vertex,
                    at,
                }
            }
            Operator::Kvfs => {
                let [shell] = numbers::<1>(rest)?;
                Edit::Kvfs { shell }
            }
            Operator::Mev => {
                let [place, edge, vertex, x, y, z] = numbers::<6>(rest)?;
                let at = Point { x, y, z };
                Edit::Mev {
                    place,
                    edge,
                    vertex,
                    at,
                }
            }
            Operator::Kev => {
                let [half] = numbers::<1>(rest)?;
                Edit::Kev { half }
            }
            Operator::Mef => {
                let [from, to, edge, face, outer] = numbers::<5>(rest)?;
                Edit::Mef {
                    from,
                    to,
                    edge,
                    face,
                    outer,
                }
            }
            Operator::Kef => {
                let [half] = numbers::<1>(rest)?;
                Edit::Kef { half }
            }
            Operator::Kemr => {
                let [half, inner] = numbers::<2>(rest)?;
                Edit::Kemr { half, inner }
            }
            Operator::Mekr => {
                let [to, inner, edge] = numbers::<3>(rest)?;
                Edit::Mekr { to, inner, edge }
            }
            Operator::Kfmrh => {
                let [kept, killed] = numbers::<2>(rest)?;
                Edit::Kfmrh { kept, killed }
            }
            Operator::Move => {
                let [vertex, x, y, z] = numbers::<4>(rest)?;
                let at = Point { x, y, z };
                Edit::Move { vertex, at }
            }
        })
    }
}

// Does what a line asks for whose first token is `first`.
fn perform(solid: &mut Solid, first: Token<'_>, rest: &mut Line<'_>) -> Result<(), Fault>
    ensures reply { result ≡ done solid.old.boundary (asked (part first.entry) (tokens_left rest.old)) }
    ensures left { solid.new.boundary ≡ left solid.old.boundary (asked (part first.entry) (tokens_left rest.old)) }
{
    let Some(operator) = Operator::named(first.text()) else {
        return Err(Fault::UnknownOperator);
    };
    let edit = operator.edit(rest).ok_or(Fault::WrongArguments)?;
    solid.apply(edit)?;
    Ok(())
}

// Does what the line with the number `line` asks for.
fn reply_to(solid: &mut Solid, bytes: &[u8], line: usize) -> Option<Reply>
    ensures reply { result ≡ line_reply line solid.old.boundary (tokens 0 bytes.now) }
    ensures left { solid.new.boundary ≡ after_line solid.old.boundary (tokens 0 bytes.now) }
{
    let mut rest = Line::new(bytes);
    let first = rest.next()?;
    let done = perform(solid, first, &mut rest);
    Some(Reply { line, done })
}

// What is looked at of an input.
#[tactic(auto, using(std::proofs::lemmas::List::take_min))]
fn front(input: &[u8]) -> &[u8]
    ensures value { result.now ≡ take 32768 input.now }
    ensures len { length result.now ≤ 32768 }
{
    &input[..LIMIT.min(input.len())]
}

// The replies to the lines, and then the listing of the solid that they leave.
fn draw_lines(heap: Global, input: &[u8]) -> Result<String, AllocError>
    requires { length input.now ≤ 32768 }
    ensures { IfOk result (λ t. string_bytes t ≡ drawn_from 1 empty (lines input.now)) }
{
    let mut solid = Solid::empty();
    let mut out = String::new(heap);
    for (index, line) in Lines::new(input).enumerate() {
        let Some(reply) = reply_to(&mut solid, line, index + 1) else {
            continue;
        };
        write!(out, "{reply}")?;
    }
    let listed = listing::listing(heap, solid.boundary())?;
    out.push_str(listed.as_str())?;
    Ok(out)
}

// The whole text that is written for an input.
pub fn draw(heap: Global, input: &[u8]) -> Result<String, AllocError>
    ensures { IfOk result (λ t. string_bytes t ≡ drawn input.now) }
{
    draw_lines(heap, front(input))
}
