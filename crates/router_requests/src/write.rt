//! Writes that are not answered yet.

use command_replies::{ClientNumber, WriteKind};
use protocol_model::{StatementList, StatementOutcome, Try};
use write_runs::{Course, Run};

/// A write that is not answered yet.
#[derive(Drop)]
pub struct OpenWrite {
    pub kind: WriteKind,
    /// The number that the client gave its statements, if it gave one.
    pub number: Option<ClientNumber>,
    pub ordered: bool,
    pub statements: StatementList,
    /// The outcomes of the statements, by their indices.
    pub answers: Vec<Option<StatementOutcome>>,
    /// Their tries that met a later table, by their indices.
    pub tries: Vec<Vec<Try>>,
    /// What was sent to shards, and is not answered.
    pub runs: Vec<Run>,
}

impl OpenWrite {
    ghost use Rattle.std.specs.Prelude.{◌≡◌};
    ghost use Rattle.base_model.specs.Identities as identities;
    ghost use Rattle.router_requests.specs.Works.{work_of, write_view};
    ghost use Rattle.write_runs.specs.Runs.{course_of, course_view};

    /// Returns the write, of which these runs are under way.
    pub(crate) fn with_runs(self, runs: Vec<Run>) -> OpenWrite
        ensures { (id : identities.RequestId) → write_view id result ≡ work_of id self (course_view self.answers.items self.tries.items runs.items) }
    {
        let OpenWrite {
            kind,
            number,
            ordered,
            statements,
            answers,
            tries,
            runs: _,
        } = self;
        OpenWrite {
            kind,
            number,
            ordered,
            statements,
            answers,
            tries,
            runs,
        }
    }

    // Has come this far.
    pub(crate) fn come(&mut self, course: Course)
        ensures { (id : identities.RequestId) → write_view id self.new ≡ work_of id self.old (course_of course) }
    {
        let Course {
            answers,
            tries,
            runs,
        } = course;
        self.answers = answers;
        self.tries = tries;
        self.runs = runs;
    }
}
