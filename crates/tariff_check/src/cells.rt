//! How many cells a tariff has.
ghost use Rattle.std.specs.Prelude.{◌*◌, ◌+◌, ◌≡◌, ◌≤◌, IfSome, if◌then◌else◌};

/// The most cells that a tariff may have.
pub(crate) const MOST_CELLS: u64 = 64_512;

/// How many cuts there are in each dimension.
#[derive(Clone, Copy)]
pub(crate) struct Counts {
    pub month_day: u32,
    pub minute: u32,
    pub distance: u32,
    pub time: u32,
}

/// The product of positions, zones, weekdays, holiday or not, and the bands between the cuts.
pub(crate) fn cells(positions: u8, zones: u8, holidays: bool, counts: &Counts) -> u64
    requires month_day { counts.now.month_day ≤ 63 }
    requires minute { counts.now.minute ≤ 63 }
    requires distance { counts.now.distance ≤ 15 }
    requires time { counts.now.time ≤ 15 }
    ensures { result ≡ positions * zones * 7 * (if holidays then 2 else 1) * ((counts.now.month_day + 1)
        * (counts.now.minute + 1) * (counts.now.distance + 1) * (counts.now.time + 1)) }
{
    let kinds = if holidays { 2 } else { 1 };
    days(positions, zones, kinds) * bands(counts)
}

/// The same product for any counts; `None` if 64 bits don't hold it.
pub(crate) fn any_cells(positions: u8, zones: u8, holidays: bool, counts: &Counts) -> Option<u64>
    ensures { IfSome result (λ cells. cells ≡ positions * zones * 7 * (if holidays then 2 else 1)
        * ((counts.now.month_day + 1) * (counts.now.minute + 1) * (counts.now.distance + 1) * (counts.now.time + 1))) }
{
    let kinds = if holidays { 2 } else { 1 };
    let bands = any_bands(counts)?;
    days(positions, zones, kinds).checked_mul(bands)
}

/// How many bands there are between any cuts; `None` if 64 bits don't hold it.
fn any_bands(counts: &Counts) -> Option<u64>
    ensures { IfSome result (λ bands. bands ≡ (counts.now.month_day + 1) * (counts.now.minute + 1)
        * (counts.now.distance + 1) * (counts.now.time + 1)) }
{
    let days = counts.month_day as u64 + 1;
    let minutes = counts.minute as u64 + 1;
    let distances = counts.distance as u64 + 1;
    let times = counts.time as u64 + 1;
    days.checked_mul(minutes)?
        .checked_mul(distances)?
        .checked_mul(times)
}

/// How many positions, zones and weekdays there are, holidays or not: at most 910,350.
fn days(positions: u8, zones: u8, kinds: u64) -> u64
    requires { kinds ≤ 2 }
    ensures value { result ≡ positions * zones * 7 * kinds }
    ensures most { result ≤ 910350 }
{
    positions as u64 * zones as u64 * 7 * kinds
}

/// How many bands there are between the cuts: at most 1,048,576.
fn bands(counts: &Counts) -> u64
    requires month_day { counts.now.month_day ≤ 63 }
    requires minute { counts.now.minute ≤ 63 }
    requires distance { counts.now.distance ≤ 15 }
    requires time { counts.now.time ≤ 15 }
    ensures value { result ≡ (counts.now.month_day + 1) * (counts.now.minute + 1) * (counts.now.distance + 1)
        * (counts.now.time + 1) }
    ensures most { result ≤ 1048576 }
{
    let days = counts.month_day as u64 + 1;
    let minutes = counts.minute as u64 + 1;
    let distances = counts.distance as u64 + 1;
    let times = counts.time as u64 + 1;
    days * minutes * distances * times
}
