// The numbers of the variables.
ghost use Rattle.std.specs.Prelude.{◌≡◌, ◌+◌, ◌*◌, ◌<◌, ◌≤◌, IsTrue};
ghost use Rattle.las_base.specs.Cells.{holds, volume};
ghost use Rattle.las_base.specs.Jobs.{IsTask, within_limits};
ghost use Rattle.cnf_table.specs.Layouts.{IsPlan, plan, plan_of, plan_vars};
ghost use Rattle.cnf_table.specs.Variables.{diagram_var, sheet_var, var_count};

use cnf_base::Var;
use las_base::{Cell, Size};
use las_spec::Job;
use std::marker::Model;

/// Which variable says what: eight for each cell of the box, and for each flow six more.
#[derive(Clone, Copy, PartialEq, Eq, Debug)]
pub struct Layout {
    size: Size,
    flow_count: u32,
}

impl Model for Layout {
    ghost use Rattle.cnf_table.specs.Layouts.{IsPlan, Plan, plan};

    ghost Value = { Plan };

    ghost view = { λ l. plan l.size l.flow_count };

    ghost inverse = { λ p. record { size = p.size; flow_count = p.flow_count } };

    ghost invariant = { λ l. IsPlan (plan l.size l.flow_count) };
}

impl Layout {
    /// The layout of a job's variables.
    pub fn of(job: &Job) -> Layout
        ensures plan { result ≡ plan_of job.now }
        ensures task { IsTask job.now }
    {
        Layout {
            size: job.size(),
            flow_count: job.flows().len() as u32,
        }
    }

    /// The sides of the box.
    pub fn size(&self) -> Size
        ensures size { result ≡ self.now.size }
        ensures kept { IsPlan self.now }
    {
        self.size
    }

    /// How many variables there are: 102,400 at most.
    pub fn vars(&self) -> u32
        ensures count { result ≡ plan_vars self.now }
        ensures few { result ≤ 102400 }
    {
        (8 + 6 * self.flow_count) * self.size.volume()
    }

    /// The variable of one of the eight members of a diagram at a cell: 0 says that it is a Y cell, 1 to 3
    /// that a pipe along I, J or K has it as its low cell, 4 to 7 are the colours of those pipes, of a
    /// K pipe at its low and at its high end.
    pub fn diagram_var(&self, member: usize, cell: Cell) -> Var
        requires member { member < 8 }
        requires held { IsTrue (holds self.now.size cell) }
        ensures value { result.0 ≡ diagram_var self.now.size member cell }
        ensures below { result.0 < plan_vars self.now }
        ensures small { result.0 < 102400 }
    {
        row_var(self.size, member as u32, cell)
    }

    /// The variable of one of the six members of a flow's sheets at a cell: the axis of the pipe and the
    /// axis that the sheet spans are I and J, I and K, J and I, J and K, K and I, K and J.
    pub fn sheet_var(&self, flow: usize, member: usize, cell: Cell) -> Var
        requires flow { flow < self.now.flow_count }
        requires member { member < 6 }
        requires held { IsTrue (holds self.now.size cell) }
        ensures value { result.0 ≡ sheet_var self.now.size flow member cell }
        ensures below { result.0 < plan_vars self.now }
        ensures small { result.0 < 102400 }
    {
        row_var(self.size, 8 + (6 * flow as u32 + member as u32), cell)
    }
}

// The variable of a cell in a row of one for each cell, where the rows stand one after the other.
fn row_var(size: Size, row: u32, cell: Cell) -> Var
    requires limits { IsTrue (within_limits size) }
    requires row { row < 200 }
    requires held { IsTrue (holds size cell) }
    ensures value { result.0 ≡ diagram_var size row cell }
    ensures small { result.0 < 102400 }
{
    Var(row * size.volume() + size.index(cell) as u32)
}

/// How many variables the clauses of a job are over: 102,400 at most.
pub fn cnf_vars(job: &Job) -> u32
    ensures count { result ≡ var_count job.now }
    ensures few { result ≤ 102400 }
{
    Layout::of(job).vars()
}
