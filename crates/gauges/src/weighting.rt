// The weighting layer.
ghost use Rattle.std.specs.Prelude.{◌≤◌};

/// Carries across each step `factor` times, from 1 to 16.
#[derive(Drop)]
pub struct Weighting<G> {
    pub(crate) gauge: G,
    pub(crate) factor: u16,
    ghost some: { 1 ≤ factor },
    ghost few: { factor ≤ 16 },
}
