//! What of a run is drawn, how large, and how far from the left its events stand.
ghost use Rattle.std.specs.Prelude.{◌<◌, ◌≡◌, ◌≤◌};
ghost use Rattle.run_picture.specs.{whole};

use scope_rules::ScopeId;

/// What of a run is drawn, and how large.
#[derive(Clone, Copy)]
pub struct View {
    /// The picture's width, in pixels: at least 320, at most 100,000.
    pub width: u32,
    /// With more rows than these, each closed scope is one row, with all that lies in it.
    pub rows: u32,
    /// The place of the first event in view: what came before it leaves no mark, and what ended before no row.
    pub from: u32,
    /// The place of the last one: what came or began behind it is not drawn.
    pub to: u32,
    /// The one scope that is drawn with what lies in it, if not all.
    pub scope: Option<ScopeId>,
}

impl View {
    /// The whole run, on a page 1,200 pixels wide.
    pub fn whole() -> View
        ensures { result ≡ whole }
    {
        View {
            width: 1200,
            rows: 300,
            from: 0,
            to: u32::MAX,
            scope: None,
        }
    }

    /// Whether the event at the place is in view.
    pub(crate) fn shows(self, place: usize) -> bool {
        self.from as usize <= place && place <= self.to as usize
    }

    /// Whether what lasts from the one place to the other, if it ends, is in view for a part of it.
    pub(crate) fn meets(self, from: usize, to: Option<usize>) -> bool {
        let ends_later = match to {
            Some(place) => self.from as usize <= place,
            None => true,
        };
        from <= self.to as usize && ends_later
    }
}

/// The place as a number of 32 bits.
pub(crate) fn small_place(place: usize) -> u32 {
    place.min(u32::MAX as usize) as u32
}

/// How high so many rows are, of those heights that a page is drawn for: the tallest is scaled down so that its smallest text
/// is 8 px high.
pub(crate) fn high(rows: u32) -> u64
    ensures { 1000 ≤ result }
{
    (168 + 22 * u64::from(rows)).max(1000).min(1250)
}

/// The width of the page, in pixels.
pub(crate) fn page_width(width: u32) -> u32 {
    width.max(320).min(100_000)
}

/// The picture's width before it is scaled to the page, with so many rows.
pub(crate) fn natural_width(width: u32, rows: u32) -> u64
    ensures { result ≤ 500000 }
{
    let wide = u64::from(page_width(width)).saturating_mul(high(rows));
    (wide / 1000).min(500_000)
}

/// The time of the event at the place, or of the last one behind all; without times, the place.
pub(crate) fn time_at(times: &[u32], place: u32) -> u64
    ensures { result < 4294967296 }
{
    match times.get((place as usize).min(times.len().saturating_sub(1))) {
        Some(time) => u64::from(*time),
        None => u64::from(place),
    }
}
