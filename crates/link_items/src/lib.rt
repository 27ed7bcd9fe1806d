//! Areas of linked objects as placing sees them, and what the regions of a link contain. Definitions alone.
#![tactic(auto)]
