//! Why a look-up in the tables is enough.
ghost use Rattle.std.specs.{List.{slice_get}, Prelude.{[], ℕ, ◌*◌, ◌<◌, ◌∷◌, ◌≡◌, Some, length}};
ghost use Rattle.{drive_modes.specs.Speed.{AreWeightsOf}, tariff_check.specs.SoundLookups.{rate_in_force}};
ghost use Rattle.tariff_check.specs.{Amounts.{HasAmountsOf}, Cells.{cells_of}, Measure.{IsMultipleOfAll}};
ghost use Rattle.tariff_compile.specs.Cells.{IsBefore, IsBelow, bands_of, cell_count, cell_number, places_of};
ghost use Rattle.tariff_compile.specs.Common.{Bands, CellLines, Context, IsInRangeOf, IsSound, IsWritable, RateNumbers};
ghost use Rattle.tariff_compile.specs.{Common.{Tree, initial_by, measure_of, sound_of}, Tables.{tables_of, weights_of}};
ghost use Rattle.tariff_compile.specs.Rows.{all_rows, row_count, row_text};
ghost use Rattle.tariff_compile.specs.Tables.{HasLinesOf, HasWeightsOf, IsCompiled, IsFit, IsInRangeFor, IsTablesOf};
ghost use Rattle.tariff_compile.specs.Tables.{TableParts, cell_of, fees_in, lines_at, lines_in, own_rate, rate_by};

/// The law of tables, for each sound tariff, constant and context that a trip may have: the context's cell is there,
/// and its lines are those that hold first by the tariff's tree. What is looked up is what those lines say: weights,
/// amounts, and 0 if no line of a kind holds.
pub fn tables_equal_the_tree()
    ensures cell { (t : Tree) (k : ℕ) (x : Context) → IsWritable t → IsSound t → IsInRangeOf t k x
        → (lines : CellLines) × (slice_get (tables_of t k).cells (cell_of t k x) ≡ Some lines) × HasLinesOf t x lines }
    ensures weights { (t : Tree) (k : ℕ) (x : Context) → IsSound t → HasWeightsOf t k x (rate_by t k x) }
    ensures amounts { (t : Tree) (x : Context) → IsSound t → HasAmountsOf t x (initial_by t x) }
    ensures lines { (t : Tree) (tables : TableParts) (x : Context) → IsTablesOf t tables → IsInRangeFor tables x
        → lines_in tables x ≡ lines_at t x }
    ensures fees { (t : Tree) (tables : TableParts) (x : Context) → IsTablesOf t tables → IsInRangeFor tables x
        → fees_in tables x ≡ initial_by t x }
{}

/// The law of weights: if the common measure is a multiple of both measures of a rate, the rate's weights are its own:
/// k pulses cost what a kilometre costs, and an interval costs what a tenth of a second costs. In a sound tariff it is
/// one of each rate's measures, so the weights in force in a context are those of the rate in force in it.
pub fn weights_are_those_of_their_rates()
    ensures own { (k common : ℕ) (r : RateNumbers) → IsMultipleOfAll (r.b ∷ r.e ∷ []) common
        → AreWeightsOf (own_rate r) k (k * common) (weights_of k common r) }
    ensures rate { (t : Tree) (k : ℕ) (x : Context) → IsSound t
        → rate_by t k x ≡ weights_of k (measure_of t.lines) (rate_in_force (sound_of t) x) }
    ensures in_force { (t : Tree) (k : ℕ) (x : Context) → IsSound t
        → AreWeightsOf (own_rate (rate_in_force (sound_of t) x)) k (k * measure_of t.lines) (rate_by t k x) }
{}

/// The law of cells: there are as many as `check` says, each place has one number and each number one
/// place, and the numbers are in the order of the places.
pub fn cells_are_numbered_in_order()
    ensures count { (t : Tree) (k : ℕ) → length (tables_of t k).cells ≡ cells_of t.lines }
    ensures number { (sizes bands : Bands) → IsBelow sizes bands
        → (cell_number sizes bands < cell_count sizes) × (bands_of sizes (cell_number sizes bands) ≡ bands) }
    ensures place { (sizes : Bands) (cell : ℕ) → cell < cell_count sizes
        → IsBelow sizes (bands_of sizes cell) × (cell_number sizes (bands_of sizes cell) ≡ cell) }
    ensures order { (sizes bands later : Bands) → IsBelow sizes bands → IsBelow sizes later
        → IsBefore (places_of bands) (places_of later) → cell_number sizes bands < cell_number sizes later }
{}

/// The law of numbers: those in the tables of a tariff are within their limits.
pub fn tables_are_fit()
    ensures { (tables : TableParts) → IsCompiled tables → IsFit tables }
{}

/// The law of rows: they are those of the measure, of each kind of line and of the cells, section after section,
/// and each row stands at its place.
pub fn rows_are_in_order()
    ensures count { (tables : TableParts) → length (all_rows tables) ≡ row_count tables }
    ensures row { (tables : TableParts) (i : ℕ) → i < row_count tables
        → slice_get (all_rows tables) i ≡ Some (row_text tables i) }
{}
