// Specifications and jobs.
ghost use Rattle.std.specs.Prelude.{◌≡◌, ◌<◌, Some, length, slice_get, IsTrue};
ghost use Rattle.las_base.specs.Jobs.{IsTask, task_of, within_limits, is_port_place};
ghost use Rattle.las_spec.specs.Briefs.{IsBrief, brief_of};
ghost use Rattle.las_spec.specs.declared.spec.Rules.TheVariants.{One};

use crate::FlowWord;
use indexmap::IndexSet;
use las_base::{Cell, Port, Size};
use std::marker::Model;

/// The version of the rules.
#[derive(Clone, Copy, PartialEq, Eq, Debug)]
pub enum Rules {
    One,
}

/// What is asked of a diagram, seen as a `Task`.
#[derive(Drop)]
pub struct Job {
    size: Size,
    ports: Vec<Port>,
    flows: Vec<FlowWord>,
    forbidden: Vec<Cell>,
}

impl Model for Job {
    ghost use Rattle.las_base.specs.Jobs.{Task, IsTask, task_of};

    ghost Value = { Task };

    ghost view = { λ j. task_of j.size j.ports.items j.flows.items j.forbidden.items };

    ghost invariant = { λ j. IsTask (task_of j.size j.ports.items j.flows.items j.forbidden.items) };
}

/// A job with the boxes in which it is asked, seen as a `Brief`.
#[derive(Drop)]
pub struct Spec {
    job: Job,
    boxes: IndexSet<Size>,
}

impl Model for Spec {
    ghost use Rattle.las_spec.specs.Briefs.{Brief, IsBrief, brief_of};

    ghost Value = { Brief };

    ghost view = { λ s. brief_of s.job s.boxes.keys };

    ghost invariant = { λ s. IsBrief (brief_of s.job s.boxes.keys) };
}

impl Job {
    pub(crate) fn new(
        size: Size,
        ports: Vec<Port>,
        flows: Vec<FlowWord>,
        forbidden: Vec<Cell>,
    ) -> Job
        requires { IsTask (task_of size ports.items flows.items forbidden.items) }
        ensures { result ≡ task_of size ports.items flows.items forbidden.items }
    {
        Job {
            size,
            ports,
            flows,
            forbidden,
        }
    }

    /// Its size, in cells.
    pub fn size(&self) -> Size
        ensures size { result ≡ self.now.size }
        ensures kept { IsTask self.now }
    {
        self.size
    }

    /// Its ports, by their numbers.
    pub fn ports(&self) -> &[Port]
        ensures ports { result.now ≡ self.now.ports }
        ensures kept { IsTask self.now }
    {
        &self.ports
    }

    /// Whether some port stands at a cell.
    pub fn has_port_at(&self, cell: Cell) -> bool
        ensures { result ≡ is_port_place self.now cell }
    {
        self.ports.iter().any(|port| port.place == cell)
    }

    /// Its flows, each with a letter for each port.
    pub fn flows(&self) -> &[FlowWord]
        ensures flows { result.now ≡ self.now.flows }
        ensures kept { IsTask self.now }
    {
        &self.flows
    }

    /// The cells that stay empty, once each, in the order in which they were given first.
    pub fn forbidden(&self) -> &[Cell]
        ensures { result.now ≡ self.now.forbidden }
    {
        &self.forbidden
    }

    /// The version of the rules.
    pub fn rules(&self) -> Rules
        ensures { result ≡ One }
    {
        Rules::One
    }
}

impl Spec {
    pub(crate) fn new(job: Job, boxes: IndexSet<Size>) -> Spec
        requires { IsBrief (brief_of job boxes.keys) }
        ensures { result ≡ brief_of job boxes.keys }
    {
        Spec { job, boxes }
    }

    /// The job as it is given, in a box of its own size.
    pub(crate) fn own_job(&self) -> &Job
        ensures job { result.now ≡ self.now.task }
        ensures kept { IsBrief self.now }
    {
        &self.job
    }

    /// Its own size, in cells: ports and forbidden cells stand in a box of this size.
    pub fn size(&self) -> Size
        ensures size { result ≡ self.now.task.size }
        ensures kept { IsBrief self.now }
    {
        self.job.size()
    }

    /// Its ports, by their numbers.
    pub fn ports(&self) -> &[Port]
        ensures { result.now ≡ self.now.task.ports }
    {
        self.job.ports()
    }

    /// Its flows, each with a letter for each port.
    pub fn flows(&self) -> &[FlowWord]
        ensures { result.now ≡ self.now.task.flows }
    {
        self.job.flows()
    }

    /// The cells that stay empty, once each, in the order in which they were given first.
    pub fn forbidden(&self) -> &[Cell]
        ensures { result.now ≡ self.now.task.forbidden }
    {
        self.job.forbidden()
    }

    /// The version of the rules.
    pub fn rules(&self) -> Rules
        ensures { result ≡ One }
    {
        self.job.rules()
    }

    /// How many boxes it has: 1 to `MOST_BOXES`.
    pub fn box_count(&self) -> usize
        ensures { result ≡ length self.now.boxes }
    {
        self.boxes.len()
    }

    /// A box by its number. Boxes stand once each, in the order in which they were given first.
    pub fn box_at(&self, n: usize) -> Size
        requires { n < length self.now.boxes }
        ensures listed { slice_get self.now.boxes n ≡ Some result }
        ensures limits { IsTrue (within_limits result) }
    {
        self.boxes.as_slice()[n]
    }
}
