// Why there is no plan.
use cluster_objects::PlanFault;
use olm_base::Memory;

/// Why a resolution has no plan.
#[derive(Debug, PartialEq, Eq, Drop)]
pub enum PlanRefusal {
    /// None can be made of what it takes.
    Cause(PlanFault),
    /// Memory ran out.
    Memory,
}

impl From<Memory> for PlanRefusal {
    ghost use Rattle.std.specs.Prelude.{◌≡◌};
    ghost use Rattle.install_plan.specs.declared.refusal.PlanRefusal.{PlanRefusal};
    ghost use Rattle.install_plan.specs.declared.refusal.PlanRefusal.TheVariants as refusal;

    ghost from_gives = { λ memory made. made ≡ refusal.Memory };

    fn from(_: Memory) -> PlanRefusal {
        PlanRefusal::Memory
    }
}
