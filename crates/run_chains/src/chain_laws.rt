//! What any chain of runs and cuts of the power means, told apart from how the code works.
ghost use Rattle.std.specs.Prelude.{ℕ, ◌++◌, ◌∷◌, List};
ghost use Rattle.{totals_record.specs.Sums.{AddsUp}, meter_run.specs.Points.{HasEntryOf, IsNumberedWithin}};
ghost use Rattle.run_chains.specs.Chain.{HasByteOf, IsChain, last_image, last_state, prefixes_of};
ghost use Rattle.run_chains.specs.{Common.{Durable, GrowsBy, HasState, entries_of}, Link.{Link, prefix_of}};
ghost use Rattle.taxi_units.specs.declared.receipt.Receipt as receipts;

/// A law: after any chain of runs and cuts the totals are the opening totals plus the sums over the entries of each
/// run's prefix, in order, each counted once. The state at the end is the one after all commits of these prefixes. Its
/// number is one higher for each of them. The trip that it holds is the last one that no closing entry follows.
pub fn chains_add_up()
    ensures totals { (durable : Durable) (image : List ℕ) (links : List Link) → IsChain durable image links
        → AddsUp durable.totals (last_state durable links).totals (entries_of (prefixes_of durable image links)) }
    ensures state { (durable : Durable) (image : List ℕ) (links : List Link) → IsChain durable image links
        → GrowsBy durable (last_state durable links) (prefixes_of durable image links) }
{}

/// A law: if a byte of a receipt stands in the text that a run of a chain left, the receipt has its entry in the prefix
/// of that run. Its number is above the one with which the run began, and at most the one that the run left. So no two
/// runs of a chain give one number to two receipts.
pub fn receipts_are_in_their_prefix()
    ensures entry { (durable : Durable) (image : List ℕ) (runs : List Link) (link : Link) (others : List Link)
        → HasState image durable → IsChain durable image (runs ++ link ∷ others) → (receipt : receipts.Receipt)
        → HasByteOf (last_image image runs) link receipt
        → HasEntryOf receipt (entries_of (prefix_of (last_state durable runs) (last_image image runs) link)) }
    ensures number { (durable : Durable) (image : List ℕ) (runs : List Link) (link : Link) (others : List Link)
        → HasState image durable → IsChain durable image (runs ++ link ∷ others) → (receipt : receipts.Receipt)
        → HasByteOf (last_image image runs) link receipt
        → IsNumberedWithin (last_state durable runs).number link.number receipt }
{}
