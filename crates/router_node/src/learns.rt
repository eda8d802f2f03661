//! Tables that arrive.

ghost use Rattle.std.specs.Prelude.{◌≡◌, if◌then◌else◌};
ghost use Rattle.chunk_model.specs.Tables.{is_longer};

use crate::all_next::AllNext;
use crate::node::RouterNode;
use crate::step_plan::{Change, StepPlan};
use bson_values::Memory;
use chunk_table::Table;
use cluster_base::Time;
use protocol_model::TableTold;
use router_requests::{Next, OpenRequest, was_created};

/// Returns the first of two tables where it is longer, else the other.
fn longer_of<'a>(table: &'a Table, other: &'a Table) -> &'a Table
    ensures { result.now ≡ (if is_longer table.now other.now then table.now else other.now) }
{
    if table.longer_than(other) {
        table
    } else {
        other
    }
}

impl RouterNode {
    ghost use Rattle.std.specs.Prelude.{◌≡◌, ℕ, IfOk, OnOk, map};
    ghost use Rattle.std.specs.List.{flat_map};
    ghost use Rattle.std.specs.Option.{option_map};
    ghost use Rattle.node_model.specs.Letters.{Letter};
    ghost use Rattle.node_model.specs.RouterRequests as requested;
    ghost use Rattle.chunk_model.specs.Tables.{table_of};
    ghost use Rattle.router_requests.specs.Nexts.{next_view};
    ghost use Rattle.router_requests.specs.Works.{open_view};
    ghost use Rattle.protocol_model.specs.Bodies.{table_told_view};
    ghost use Rattle.router_node.specs.AllNext.{AreNext};
    ghost use Rattle.router_node.specs.Nexts.{next_at, tables_told};
    ghost use Rattle.router_node.specs.RouterStates.{router_of};
    ghost use Rattle.router_node.specs.StepPlans.{IsHeard};

    // Returns the table that is known of a collection after one arrived.
    #[tactic(auto, using(crate::proofs::Known::known_own, crate::proofs::Known::known_other))]
    fn known_after<'a>(&'a self, told: &'a TableTold) -> Option<&'a Table>
        ensures { option_map (λ t. t.now) result ≡ table_of told.now.namespace (tables_told told.now self.now.tables.tables) }
    {
        match &told.table {
            None => self.table_of(&told.namespace),
            Some(table) => {
                if table.namespace().as_str() != told.namespace.as_str() {
                    return self.table_of(&told.namespace);
                }
                match self.table_of(&told.namespace) {
                    None => Some(table),
                    Some(old) => Some(longer_of(table, old)),
                }
            }
        }
    }

    // Returns what becomes of an open request after a table arrived, by the one that is then known. Returns `Memory` if memory runs out.
    fn next_after(
        &self,
        time: Time,
        told: &TableTold,
        known: Option<&Table>,
        request: &OpenRequest,
    ) -> Result<Next, Memory>
        requires { table_of told.now.namespace (tables_told told.now self.now.tables.tables) ≡ option_map (λ t. t.now) known }
        ensures { IfOk result (λ next. next_at (router_of self.now) time.0 told.now (open_view self.now.me.0 self.now.life request.now)
            ≡ next_view (router_of self.now) time.0 (open_view self.now.me.0 self.now.life request.now) next) }
    {
        self.asker().next_of(
            self.alloc,
            time,
            &told.namespace,
            was_created(told),
            told.at,
            known,
            request,
        )
    }

    // Returns what becomes of these open requests after a table arrived, or `Memory` if memory runs out.
    fn learned(
        &self,
        time: Time,
        told: &TableTold,
        requests: &[Box<OpenRequest>],
    ) -> Result<AllNext, Memory>
        ensures { IfOk result (λ all. AreNext (λ q. next_at (router_of self.now) time.0 told.now q)
            (map (λ q. open_view self.now.me.0 self.now.life q.value) requests.now) all) }
    {
        let known = self.known_after(told);
        let mut all = AllNext::with_room(self.alloc, requests.len())?;
        for request in requests {
            let next = self.next_after(time, told, known, request)?;
            self.add_next(&mut all, time, request, next)?;
        }
        Ok(all)
    }

    // Returns the plan for a table that arrives, or `Memory` if memory runs out.
    pub(crate) fn plan_table(&self, time: Time, told: TableTold) -> Result<StepPlan, Memory>
        ensures { (m : Letter) → m.body ≡ table_told_view told → time.0 ≡ requested.heard (router_of self.now) m →
            IfOk result (λ p. IsHeard (router_of self.now) m p) }
    {
        let all = self.learned(time, &told, self.requests.as_slice())?;
        let AllNext {
            fates,
            mail,
            replies,
        } = all;
        let change = Change::Learns(told.table, fates);
        Ok(self.hears_all(time, change, mail, replies))
    }
}
