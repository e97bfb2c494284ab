//! A run and an explanation of one drive, on a new store.
ghost use Rattle.std.specs.Prelude.{ℕ, ◌≡◌, List};
ghost use Rattle.run_chains.specs.{Common.{opening_in, run_answer, start_of}, NewStore.{ExplainsRun, IsNewStore}};

/// A law: let `run` reach the end of a drive on a new store that was sealed with a tariff and parameters. Then
/// `explain` of the drive with these texts explains the hirings of the receipts that the run prints, each once and in
/// order, by receipts that are equal to them. `explain` prints no number of a receipt, which is the store's.
pub fn explanations_are_of_the_run()
    ensures { (tariff params drive image : List ℕ) → IsNewStore tariff params image
        → (run_answer (start_of (opening_in image) tariff) drive).status ≡ 0
        → ExplainsRun tariff params drive image }
{}
