// How the rows of a buffer lie, and which of their words count.

ghost use Rattle.std.specs.Prelude.{◌≤◌};

// Rows of which each begins `stride` words after the one before. Rows are added up in their first
// `width` words, and leading bits are looked for in their first `lead`.
#[derive(Clone, Copy)]
pub struct Layout {
    pub stride: usize,
    pub width: usize,
    pub lead: usize,
    pub ghost lead_within: { lead ≤ width },
    pub ghost width_within: { width ≤ stride },
}
