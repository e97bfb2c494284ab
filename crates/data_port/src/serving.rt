//! Serves a stream of requests: reads it from a file, and prints the replies.
ghost use Rattle.std.specs.Prelude.{[], ℕ, ◌++◌, ◌+◌, ◌<◌, ◌^◌, ◌≡◌, ◌≤◌, All, IfOk, IfSome, IsErr, List, None, OnErr};
ghost use Rattle.std.specs.Prelude.{OnOk, Some, drop, false, length, take};
ghost use Rattle.outside.specs.{Faults.{HasCause, MayRise, RisesOnlyIf, Rose}, Reading.{LeavesOthers}};
ghost use Rattle.data_port.specs.{Common.{Begins, IsDurable, IsSeal, KeepsStore}, Requests.{IsRequest}};
ghost use Rattle.data_port.specs.Reading.{HasSense, HasTaken, bad_at_end};
ghost use Rattle.data_port.specs.{ReadingStages.{ended_in}, ServingStages.{IsGoingPort, ServesPiece, StopsNext}};
ghost use Rattle.data_port.specs.{Reply.{reply_to}, ServedStream.{IsBoundedByRequests, Serves, ServesMore, replies}};

use crate::port::Port;
use crate::reply::put_reply;
use crate::request::Request;
use arrayvec::ArrayVec;
use outside::{Failed, Files, Printer, STORE_SIZE};
use seal_record::Seal;
use std::sync::ledger::Ledger;
use taxi_units::{Line, STREAM_LIMIT, Steps};
use totals_record::Durable;

/// Why a stream of requests wasn't served to its end.
#[derive(Clone, Copy)]
pub enum PortFault {
    /// A read of the stream failed.
    ReadFault,
    /// The board failed.
    BoardFault,
    /// The byte at this place, from 0 on, is the first that no stream of requests has there; or the stream ends at this
    /// place, and a request is unfinished.
    Frame(u64),
    /// As many bytes as a stream may have were taken, and its end wasn't seen.
    TooLong,
}

/// Serves the requests in the file of a word: reads it in pieces of at most 512 bytes, and prints the reply to each
/// request in order. Each reply is one call of the board, and one step. It takes no memory, and the store stays as it
/// was.
///
/// `Frame`: the stream is bad. `TooLong`: 2^40 bytes were taken, none of their places is bad, and the end wasn't seen.
/// Both come after the replies to the requests before. `ReadFault`: a read failed, so the file's count of faults rose
/// by one in this call. `BoardFault`: a call of the board failed, so its count rose by one. With these two a beginning
/// of the replies was printed, and with each other answer neither count rose.
///
/// The durable state and the seal are in their ranges. All of it is this project's own.
pub fn serve<F: Files, B: Printer<STORE_SIZE, L>, L: Ledger>(
    durable: &Durable,
    seal: &Seal,
    files: &mut F,
    word: usize,
    board: &mut B,
    steps: &mut Steps<L>,
) -> Result<(), PortFault>
    requires durable { IsDurable durable.now }
    requires seal { IsSeal seal.now }
    ensures serves { F.tells → Serves B.tells_text durable.now seal.now
        (F.rest files.old word) (F.rest files.new word) (B.printed board.old) (B.printed board.new) result }
    ensures steps { F.tells → IsBoundedByRequests (F.rest files.old word) (F.rest files.new word) steps.old steps.new }
    ensures others { LeavesOthers F.rest word files.old files.new }
    ensures read_fault { result ≡ Err PortFault.ReadFault → Rose (F.faults files.old word) (F.faults files.new word) }
    ensures board_fault { RisesOnlyIf (result ≡ Err PortFault.BoardFault) (B.faults board.old) (B.faults board.new) }
    ensures counts { (other : ℕ)
        → MayRise (result ≡ Err PortFault.ReadFault) (F.faults files.old other) (F.faults files.new other) }
    ensures store { KeepsStore B.Printer board.old board.new }
{
    let mut port = Port::new();
    let mut left = STREAM_LIMIT;
    while left > 0 {
        let most = left.min(512) as usize;
        let next = serve_next(&mut port, files, word, most, durable, seal, board, steps)?;
        match next {
            None => return Ok(()),
            Some(count) => left -= count as u64,
        }
    }
    Err(PortFault::TooLong)
}

/// Reads at most one piece of a stream, of at most `most` bytes, and prints the replies to the requests that end in it,
/// so that no reply waits for bytes behind its request. It gives how many bytes were taken, at least one; or `None` if
/// the stream is at its end, and no request is unfinished.
fn serve_next<F: Files, B: Printer<STORE_SIZE, L>, L: Ledger>(
    port: &mut Port,
    files: &mut F,
    word: usize,
    most: usize,
    durable: &Durable,
    seal: &Seal,
    board: &mut B,
    steps: &mut Steps<L>,
) -> Result<Option<usize>, PortFault>
    requires port { IsGoingPort port.old }
    requires few { port.old.taken + most < 2 ^ 64 }
    requires most { (0 < most) × (most ≤ 512) }
    requires found { IsDurable durable.now × IsSeal seal.now }
    ensures more { IfOk result (λ next. IfSome next (λ count. (count ≤ most)
        × ServesMore F.tells B.tells_text durable.now seal.now port.old port.new (F.rest files.old word)
        (F.rest files.new word) (B.printed board.old) (B.printed board.new) steps.old steps.new count)) }
    ensures stops { StopsNext F.tells B.tells_text durable.now seal.now most port.old port.new (F.rest files.old word)
        (F.rest files.new word) (B.printed board.old) (B.printed board.new) steps.old steps.new result }
    ensures others { LeavesOthers F.rest word files.old files.new }
    ensures read_fault { result ≡ Err PortFault.ReadFault → Rose (F.faults files.old word) (F.faults files.new word) }
    ensures board_fault { RisesOnlyIf (result ≡ Err PortFault.BoardFault) (B.faults board.old) (B.faults board.new) }
    ensures counts { (other : ℕ)
        → MayRise (result ≡ Err PortFault.ReadFault) (F.faults files.old other) (F.faults files.new other) }
    ensures store { KeepsStore B.Printer board.old board.new }
{
    let mut piece = [0; 512];
    let count = match read_piece(files, word, most, &mut piece) {
        Ok(count) => count,
        Err(_) => return Err(PortFault::ReadFault),
    };
    if count == 0 {
        end(port)?;
        return Ok(None);
    }
    let bytes = front(&piece, count);
    serve_piece(port, bytes, durable, seal, board, steps)?;
    Ok(Some(count))
}

/// Reads at most a number of bytes into the front of a piece.
fn read_piece<F: Files>(
    files: &mut F,
    word: usize,
    most: usize,
    piece: &mut [u8; 512],
) -> Result<usize, Failed>
    requires some { 0 < most }
    requires most { most ≤ 512 }
    ensures within { IfOk result (λ n. n ≤ most) }
    ensures taken { F.tells → IfOk result (λ n.
        F.rest files.old word ≡ take n piece.new ++ F.rest files.new word) }
    ensures over { F.tells → result ≡ Ok 0 → F.rest files.old word ≡ [] }
    ensures kept { F.tells → OnErr result (F.rest files.new word ≡ F.rest files.old word) }
    ensures others { LeavesOthers F.rest word files.old files.new }
    ensures cause { HasCause (F.faults files.old word) (F.faults files.new word) result }
    ensures counts { (other : ℕ) → MayRise (IsErr result) (F.faults files.old other) (F.faults files.new other) }
{
    files.read(word, &mut piece[..most])
}

/// The first bytes of a piece.
fn front(piece: &[u8], count: usize) -> &[u8]
    requires { count ≤ length piece.now }
    ensures { result.now ≡ take count piece.now }
{
    &piece[..count]
}

/// The bytes behind the first ones.
fn behind(piece: &[u8], count: usize) -> &[u8]
    requires { count ≤ length piece.now }
    ensures { result.now ≡ drop count piece.now }
{
    &piece[count..]
}

/// How a stream ends that ends here.
fn end(port: &Port) -> Result<(), PortFault>
    ensures whole { OnOk result ((b : List ℕ) → HasTaken port.now b → bad_at_end b ≡ None) }
    ensures bad { OnErr result ((place : ℕ) × (result ≡ Err (PortFault.Frame place))
        × ((b : List ℕ) → HasTaken port.now b → bad_at_end b ≡ Some place)) }
{
    match port.finish() {
        Ok(()) => Ok(()),
        Err(bad) => Err(PortFault::Frame(bad.place)),
    }
}

/// Prints the replies to the requests that end in a piece.
fn serve_piece<B: Printer<STORE_SIZE, L>, L: Ledger>(
    port: &mut Port,
    piece: &[u8],
    durable: &Durable,
    seal: &Seal,
    board: &mut B,
    steps: &mut Steps<L>,
) -> Result<(), PortFault>
    requires sense { HasSense port.old }
    requires going { port.old.failed ≡ false }
    requires few { port.old.taken + length piece.now < 2 ^ 64 }
    requires durable { IsDurable durable.now }
    requires seal { IsSeal seal.now }
    ensures serves { ServesPiece B.tells_text durable.now seal.now port.old port.new piece.now
        (B.printed board.old) (B.printed board.new) result }
    ensures steps { steps.new ≤ steps.old + length (ended_in port.old piece.now) }
    ensures board_fault { RisesOnlyIf (result ≡ Err PortFault.BoardFault) (B.faults board.old) (B.faults board.new) }
    ensures store { KeepsStore B.Printer board.old board.new }
{
    let mut rest = piece;
    while !rest.is_empty() {
        let mut requests = ArrayVec::new();
        let fed = port.feed(rest, &mut requests);
        if print_replies(requests.as_slice(), durable, seal, board, steps).is_err() {
            return Err(PortFault::BoardFault);
        }
        match fed {
            Ok(count) => {
                let left = behind(rest, count);
                rest = left;
            }
            Err(bad) => return Err(PortFault::Frame(bad.place)),
        }
    }
    Ok(())
}

/// Prints the replies to requests, in order.
#[tactic(auto, using(outside::proofs::Laws::keeps_none, outside::proofs::Laws::keeps_then))]
fn print_replies<B: Printer<STORE_SIZE, L>, L: Ledger>(
    requests: &[Request],
    durable: &Durable,
    seal: &Seal,
    board: &mut B,
    steps: &mut Steps<L>,
) -> Result<(), Failed>
    requires requests { All IsRequest requests.now }
    requires durable { IsDurable durable.now }
    requires seal { IsSeal seal.now }
    ensures whole { B.tells_text
        → OnOk result (B.printed board.new ≡ B.printed board.old ++ replies durable.now seal.now requests.now) }
    ensures begun { B.tells_text
        → Begins (B.printed board.old) (B.printed board.new) (replies durable.now seal.now requests.now) }
    ensures cause { HasCause (B.faults board.old) (B.faults board.new) result }
    ensures steps { steps.new ≤ steps.old + length requests.now }
    ensures store { KeepsStore B.Printer board.old board.new }
{
    for request in requests {
        print_reply(request, durable, seal, board, steps)?;
    }
    Ok(())
}

/// Prints the reply to a request.
#[tactic(auto, using(outside::proofs::Laws::keeps_print))]
fn print_reply<B: Printer<STORE_SIZE, L>, L: Ledger>(
    request: &Request,
    durable: &Durable,
    seal: &Seal,
    board: &mut B,
    steps: &mut Steps<L>,
) -> Result<(), Failed>
    requires request { IsRequest request.now }
    requires durable { IsDurable durable.now }
    requires seal { IsSeal seal.now }
    ensures whole { B.tells_text
        → OnOk result (B.printed board.new ≡ B.printed board.old ++ reply_to durable.now seal.now request.now) }
    ensures begun { B.tells_text
        → Begins (B.printed board.old) (B.printed board.new) (reply_to durable.now seal.now request.now) }
    ensures cause { HasCause (B.faults board.old) (B.faults board.new) result }
    ensures steps { steps.new ≤ steps.old + 1 }
    ensures store { KeepsStore B.Printer board.old board.new }
{
    let mut line = Line::new();
    put_reply(&mut line, request, durable, seal);
    board.print(line.as_slice(), steps)
}
