// Writes the program's output lines, byte for byte, into a buffer of the caller's: nothing below the programs allocates.

#![tactic(auto)]

mod answer;

ghost use Rattle.std.specs.Prelude.{◌≡◌, ◌+◌, ◌≤◌, length};
ghost use Rattle.lines.specs.Text.{line_text, listing_text, reply_text};
ghost use Rattle.lines.specs.Writing.{Answers, Left, Put};

pub use answer::{Reply, ShortBuffer};
use itoa::Buffer;

/// Writes a plan's listing to the front of `out`, its price and then its steps, and returns its length.
/// A buffer that is too short is refused, and stays as it was.
pub fn listing(price: u32, steps: &[u32], out: &mut [u8]) -> Result<usize, ShortBuffer>
    ensures { Answers (listing_text price steps.now) out.old result out.new }
{
    // A refusal leaves the buffer alone, so the text is measured before any of it is written.
    room_after_listing(out.len(), price, steps).ok_or(ShortBuffer)?;
    let mut writer = Writer { out, at: 0 };
    writer.line(b"price", &[price as usize]);
    for (position, action) in steps.iter().enumerate() {
        writer.line(b"step", &[position, *action as usize]);
    }
    Ok(writer.at)
}

/// Writes a reply to the front of `out`, and returns its length. A buffer that is too short is refused, and stays as it was.
pub fn reply(what: Reply, out: &mut [u8]) -> Result<usize, ShortBuffer>
    ensures { Answers (reply_text what) out.old result out.new }
{
    match what {
        Reply::Bad { number, line } => only_line(out, b"bad", &[number as usize, line]),
        Reply::Unlaid { place, fact } => only_line(out, b"unlaid", &[3, place, fact]),
        Reply::Done { saving } => only_line(out, b"done", &[saving as usize]),
        Reply::No { number } => only_line(out, b"no", &[number as usize]),
        Reply::NoAction { action } => only_line(out, b"no", &[2, action as usize]),
        Reply::NoFact { place, fact } => only_line(out, b"no", &[3, place, fact]),
    }
}

// What is left of `room` behind a listing, or `None` where the listing is longer.
fn room_after_listing(room: usize, price: u32, steps: &[u32]) -> Option<usize>
    ensures { Left (listing_text price steps.now) room result }
{
    let mut left = room_after(room, b"price", &[price as usize])?;
    for (position, action) in steps.iter().enumerate() {
        left = room_after(left, b"step", &[position, *action as usize])?;
    }
    Some(left)
}

// Writes a text of one line to the front of `out`, and returns its length, or refuses a buffer that is too short.
fn only_line(out: &mut [u8], word: &[u8], numbers: &[usize]) -> Result<usize, ShortBuffer>
    ensures { Answers (line_text word.now numbers.now) out.old result out.new }
{
    room_after(out.len(), word, numbers).ok_or(ShortBuffer)?;
    let mut writer = Writer { out, at: 0 };
    writer.line(word, numbers);
    Ok(writer.at)
}

// What is left of `room` behind a line, or `None` where the line is longer. It measures what `Writer::line` writes: a refusal has
// to leave the buffer as it was.
#[tactic(auto, using(crate::proofs::Texts::line_parts))]
fn room_after(room: usize, word: &[u8], numbers: &[usize]) -> Option<usize>
    ensures { Left (line_text word.now numbers.now) room result }
{
    let mut digits = Buffer::new();
    let mut left = room.checked_sub(word.len())?;
    for n in numbers {
        left = left.checked_sub(1 + digits.format(*n).len())?;
    }
    left.checked_sub(1)
}

// A buffer, and the place in it behind all that is written.
#[derive(Drop)]
struct Writer<'a> {
    out: &'a mut [u8],
    at: usize,
}

impl Writer<'_> {
    // Writes `bytes`.
    fn put(&mut self, bytes: &[u8])
        requires { self.old.at + length bytes.now ≤ length self.old.out.now }
        ensures same_buffer { self.new.out.ghost_name ≡ self.old.out.ghost_name }
        ensures writes { Put bytes.now self.old.out.now self.old.at self.new.at self.new.out.now }
    {
        let next = self.at + bytes.len();
        self.out[self.at..next].copy_from_slice(bytes);
        self.at = next;
    }

    // Writes a line. The word and the numbers come as two: they are taken apart at once.
    #[tactic(auto, using(crate::proofs::Texts::line_parts))]
    fn line(&mut self, word: &[u8], numbers: &[usize])
        requires { self.old.at + length (line_text word.now numbers.now) ≤ length self.old.out.now }
        ensures same_buffer { self.new.out.ghost_name ≡ self.old.out.ghost_name }
        ensures writes { Put (line_text word.now numbers.now) self.old.out.now self.old.at self.new.at self.new.out.now }
    {
        let mut digits = Buffer::new();
        self.put(word);
        for n in numbers {
            self.put(b"\t");
            self.put(digits.format(*n).as_bytes());
        }
        self.put(b"\n");
    }
}

#[cfg(test)]
mod tests;
