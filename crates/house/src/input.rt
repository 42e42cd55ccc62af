// Lines off standard input, of a bounded length.
ghost use Rattle.std.specs.Prelude.{◌≡◌, ◌≢◌, ◌≤◌, ◌⊎◌, ℕ, [], true, false, length, take, IfSome, IfOk, OnOk, OnErr, vec_len, All};
ghost use Rattle.std.specs.Io.{StartsWith, StopsAt, appended_bytes};
ghost use Rattle.std.specs.Io.KnownBytes.{Keeps, Consumes};
ghost use Rattle.std.specs.Io.BufRead.{strip_last, DropsThrough};
ghost use Rattle.house.specs.Inputs.{Reads, Ends, IsFront, WithinLine};

use lines::line::LineError;
use std::alloc::Global;
use std::io;
use std::io::{BufRead, ErrorKind, Read};

// The longest line that is read: room for a packet of half a mebibyte in hexadecimal digits.
pub const MAX_LINE: usize = 1_048_576;

// Takes the end off a line that has one.
fn strip_end(line: &mut Vec<u8>)
    ensures { line.new.items ≡ strip_last 10 line.old.items }
{
    line.pop_if(|b| *b == b'\n');
}

// Adds the first of these bytes to the line, through the line's end and as long as there is room, and answers how many. There is room for one byte more than a line may have, which shows that it is too long.
fn add(line: &mut Vec<u8>, part: &[u8]) -> io::Result<usize>
    ensures bound { vec_len line.old ≤ 1048577 → vec_len line.new ≤ 1048577 }
    ensures appends { StartsWith line.new.items line.old.items }
    ensures stops { StopsAt (appended_bytes line.old.items line.new.items) 10 }
    ensures within { IfOk result (λ n. n ≤ length part.now) }
    ensures taken { IfOk result (λ n. appended_bytes line.old.items line.new.items ≡ take n part.now) }
    ensures none { IfOk result (λ n. n ≡ 0 → (part.now ≡ []) ⊎ (1048577 ≤ vec_len line.old)) }
{
    let room = (MAX_LINE + 1).saturating_sub(line.len());
    // `u64` has no `From<usize>`.
    let mut front = Read::take(part, room as u64);
    front.read_until(b'\n', line)
}

// Adds to the line what the input has at hand of it, and answers whether the line goes on.
fn add_part<R: BufRead>(input: &mut R, line: &mut Vec<u8>) -> io::Result<bool>
    ensures bound { vec_len line.old ≤ 1048577 → vec_len line.new ≤ 1048577 }
    ensures appends { StartsWith line.new.items line.old.items }
    ensures stops { StopsAt (appended_bytes line.old.items line.new.items) 10 }
    ensures kept { OnErr result (Keeps (R.remaining input.old) (R.remaining input.new)) }
    ensures taken { OnOk result (Consumes (R.remaining input.old) (R.remaining input.new) (appended_bytes line.old.items line.new.items)) }
    ensures more { result ≡ Ok true → All (λ b. b ≢ 10) (appended_bytes line.old.items line.new.items) }
    ensures ends { result ≡ Ok false → (1048577 ≤ vec_len line.old) ⊎ Ends (R.remaining input.old) (R.remaining input.new) (appended_bytes line.old.items line.new.items) }
{
    let part = match input.fill_buf() {
        Ok(part) => part,
        Err(e) if e.kind() == ErrorKind::Interrupted => return Ok(true),
        Err(e) => return Err(e),
    };
    let added = add(line, part)?;
    let goes_on = added > 0 && part[added - 1] != b'\n';
    input.consume(added);
    Ok(goes_on)
}

// The front of the next line: the line with its end, or as much of it as shows that it is too long. It is empty at the end of the input.
fn read_front<R: BufRead>(heap: Global, input: &mut R) -> io::Result<Vec<u8>>
    ensures bound { IfOk result (λ v. vec_len v ≤ 1048577) }
    ensures stops { IfOk result (λ v. StopsAt v.items 10) }
    ensures front { IfOk result (λ v. IsFront (R.remaining input.old) (R.remaining input.new) v.items) }
    ensures failed { OnErr result (WithinLine (R.remaining input.old) (R.remaining input.new)) }
{
    let mut line = Vec::new(heap);
    // `read_until` over a `Read::take` of the input would do too, but nothing says where an input stands behind a `Take` of it.
    for _ in 0..u64::MAX {
        if !add_part(input, &mut line)? {
            return Ok(line);
        }
    }
    Err(ErrorKind::TimedOut.into())
}

// Passes over what is left of a line, with its end.
fn pass_over<R: BufRead>(input: &mut R) -> io::Result<()>
    ensures { OnOk result (DropsThrough (R.remaining input.old) (R.remaining input.new) 10) }
{
    input.skip_until(b'\n')?;
    Ok(())
}

// The next line without its end, or None at the end of the input. A line that is too long, or for which there is no memory, is passed over to its end.
pub fn next_line<R: BufRead>(
    heap: Global,
    input: &mut R,
) -> io::Result<Option<Result<Vec<u8>, LineError>>>
    ensures bound { IfOk result (λ o. IfSome o (λ l. IfOk l (λ v. vec_len v ≤ 1048576))) }
    ensures one { IfOk result (λ o. IfSome o (λ l. IfOk l (λ v. All (λ b. b ≢ 10) v.items))) }
    ensures read { IfSome (R.remaining input.old) (λ xs. IfOk result (Reads xs)) }
    ensures rest { OnOk result (DropsThrough (R.remaining input.old) (R.remaining input.new) 10) }
{
    let mut line = match read_front(heap, input) {
        Ok(line) => line,
        Err(e) if e.kind() == ErrorKind::OutOfMemory => {
            pass_over(input)?;
            return Ok(Some(Err(LineError::Memory)));
        }
        Err(e) => return Err(e),
    };
    if line.is_empty() {
        return Ok(None);
    }
    strip_end(&mut line);
    if line.len() > MAX_LINE {
        pass_over(input)?;
        return Ok(Some(Err(LineError::Malformed)));
    }
    Ok(Some(Ok(line)))
}
