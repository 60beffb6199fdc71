//! Plans of phases one after another.

use kc_graph::List;
use kc_groups::PhasePlan;

/// Plans of phases one after another, in the order of the phases. Contracts see them as a list.
pub type PhasePlans = List<PhasePlan>;
