//! What the answers of a scan mean, and what stays of a pair, in words that share nothing with how the code finds it.
ghost use Rattle.std.specs.Prelude.{ℕ, ◌+◌, ◌↔◌, ◌≡◌, ◌≤◌, List, Ok, Option, Result, Some, length};
ghost use Rattle.{taxi_units.specs.Bytes.{AreBytes}, slot_store.specs.Slots.{StandsFor, bytes_behind}};
ghost use Rattle.slot_store.specs.{Common.{Pair, Place, SameBut}, Stages.{IsPair, IsReadyOn, IsSettledOn, spare_at}};
ghost use Rattle.slot_store.specs.{Scan.{IsAnswer, found_at}, Writes.{IsApart, LeavesThroughout, OrWithin, WritesIn}};
ghost use Rattle.slot_store.specs.Sizes.{pair_size, slot_size};
ghost use Rattle.slot_store.specs.Slots.{FliesNoMore, IsAt, IsBlank, IsOpen, IsQuiet, IsSamePair, Shows, ShowsEither};
ghost use Rattle.slot_store.specs.declared.found.{Found.{Found, TheVariants.{Latest}}, SlotFault.{SlotFault}};

use outside::Board;
use slot_bodies::Body;
use std::sync::ledger::Ledger;

/// The answer to a pair of slots is the one that its image calls for, and no other.
pub fn a_scan_answers_by_the_image<T: Body>()
    ensures { (at : ℕ) (image : List ℕ) (answer : Result (Found T) SlotFault)
        → (found_at T.reads T.number_of at image ≡ answer) ↔ IsAnswer T.reads T.number_of at image answer }
{}

/// A scan of an image that stands for a body finds that body.
pub fn a_scan_finds_the_body<T: Body>()
    ensures { (at : ℕ) (image : List ℕ) (body : T) → StandsFor T.reads T.number_of at image body
        → (place : Place) × (found_at T.reads T.number_of at image ≡ Ok (Latest place body)) }
{}

/// A pair of slots stands for one body at most.
pub fn a_pair_stands_for_one_body<T: Body>()
    ensures { (at : ℕ) (image : List ℕ) (one other : T)
        → StandsFor T.reads T.number_of at image one → StandsFor T.reads T.number_of at image other → one ≡ other }
{}

/// An open slot whose body is read has that body's own spelling, in an image of bytes.
pub fn an_open_slot_has_a_spelling<T: Body>()
    ensures { (start : ℕ) (image : List ℕ) (body : T) → AreBytes image → start + slot_size ≤ length image
        → IsOpen T.reads start image (Some body) → bytes_behind start image ≡ T.spelling body }
{}

/// A pair whose latest body is at a place stands for that body. It stays so in each image in which the pair has the
/// same bytes, and a blank pair stays blank there. Such images are those that a cut leaves while nothing of the pair is
/// in flight, and those after writes elsewhere.
pub fn a_pair_that_is_not_touched_stays<T: Body>()
    ensures stands { (at : ℕ) (place : Place) (image : List ℕ) (body : T)
        → IsAt T.reads T.number_of at place image body → StandsFor T.reads T.number_of at image body }
    ensures stays { (at : ℕ) (place : Place) (image left : List ℕ) (body : T)
        → IsAt T.reads T.number_of at place image body → IsSamePair at image left
        → IsAt T.reads T.number_of at place left body }
    ensures blank { (at : ℕ) (image left : List ℕ) → IsBlank at image → IsSamePair at image left → IsBlank at left }
{}

/// A pair that is settled, or blank with nothing in flight, stays so on a board on which it has the same bytes and no
/// more of it is in flight. A cut leaves what it stands for.
pub fn a_settled_pair_stays<T: Body, B: Board<N, L>, L: Ledger, const N: usize>()
    ensures settled { (at : ℕ) (place : Place) (body : T) (old new : B) → IsSettledOn T.Body B.Printer at place old body
        → IsSamePair at (B.image old) (B.image new) → FliesNoMore at (B.in_flight old) (B.in_flight new)
        → IsSettledOn T.Body B.Printer at place new body }
    ensures ready { (pair : Pair) (latest : Option T) (old new : B) → IsReadyOn T.Body B.Printer pair old latest
        → IsSamePair pair.at (B.image old) (B.image new) → FliesNoMore pair.at (B.in_flight old) (B.in_flight new)
        → IsReadyOn T.Body B.Printer pair new latest }
    ensures left { (pair : Pair) (latest : Option T) (board : B) (left_image : List ℕ)
        → IsReadyOn T.Body B.Printer pair board latest
        → SameBut (B.in_flight board) (B.image board) left_image → Shows T.reads T.number_of pair.at left_image latest }
{}

/// If nothing of a pair is in flight, and writes lie apart from it, it keeps its bytes, and nothing of it is in flight
/// after them. It also keeps its bytes in what a cut leaves.
pub fn a_pair_apart_is_the_same<B: Board<N, L>, L: Ledger, const N: usize>()
    ensures image { (at start count : ℕ) (old : B) (left_image : List ℕ)
        → IsApart at start count → IsQuiet at (B.in_flight old)
        → SameBut (OrWithin (B.in_flight old) start count) (B.image old) left_image
        → IsSamePair at (B.image old) left_image }
    ensures quiet { (at start count : ℕ) (old new : B) → IsApart at start count → IsQuiet at (B.in_flight old)
        → WritesIn B.Printer start count old new → IsQuiet at (B.in_flight new) }
{}

/// What a stage or a store promises of the slot that is written next holds for the whole pair.
pub fn a_store_of_the_whole_pair<T: Body, B: Board<N, L>, L: Ledger, const N: usize>()
    ensures leaves { (pair : Pair) (latest : Option T) (body : T) (old new : B) → IsPair pair
        → LeavesThroughout B.Printer (spare_at pair) slot_size
        (ShowsEither T.reads T.number_of pair.at latest body) old new
        → LeavesThroughout B.Printer pair.at pair_size
        (ShowsEither T.reads T.number_of pair.at latest body) old new }
    ensures writes { (pair : Pair) (old new : B) → IsPair pair
        → WritesIn B.Printer (spare_at pair) slot_size old new → WritesIn B.Printer pair.at pair_size old new }
{}
