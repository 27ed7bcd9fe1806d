//! What is found of selections: one, or the lines of the first two.

ghost use Rattle.std.specs.Prelude.{◌≡◌};
ghost use Rattle.link_assign.specs.Finding.{is_nowhere as nowhere, joined as joined_with};
ghost use Rattle.link_assign.specs.Shown.{shown_offer};

use crate::offers::Offer;
use place_model::Edge;

/// What assignment takes from a selection.
#[derive(Clone, Copy)]
pub struct Pick {
    pub region: usize,
    pub edge: Edge,
    pub line: u32,
}

/// The one best selection, or the lines of the first two.
#[derive(Clone, Copy)]
pub enum Finding {
    Nowhere,
    Within(Pick),
    Unclear(u32, u32),
}

/// With one more selection that is as good.
pub fn joined(finding: Finding, offer: &Offer) -> Finding
    ensures { result ≡ joined_with finding (shown_offer offer.now) }
{
    match finding {
        Finding::Nowhere => Finding::Within(Pick {
            region: offer.region,
            edge: offer.selection.edge,
            line: offer.selection.line,
        }),
        Finding::Within(pick) => Finding::Unclear(pick.line, offer.selection.line),
        Finding::Unclear(first, second) => Finding::Unclear(first, second),
    }
}

pub fn is_nowhere(finding: &Finding) -> bool
    ensures { result ≡ nowhere finding.now }
{
    matches!(finding, Finding::Nowhere)
}
