//! A plan.

ghost use Rattle.std.specs.Prelude.{◌≡◌, None};
ghost use Rattle.query_graph.specs.IsGraph.{IsGraph};
ghost use Rattle.trust_sets.specs.Trust.{trust_of};
ghost use Rattle.lowering.specs.FirstSlots.{first_lengths};
ghost use Rattle.lowering.specs.Plan.{answer_at};
ghost use Rattle.lowering.specs.Unbuilt.{unbuilt};

use clear_tasks::ClearTask;
use lanes::{Party, Three};
use query_graph::Graph;
use std::marker::Model;
use step_lists::StepList;
use trust_sets::Trust;

/// How a query is carried out: its text and graph, one list of steps, cut into a segment for each node and then for each
/// output, and where each recipient finds its answers.
#[derive(Debug, Drop)]
pub struct Plan {
    text: Vec<u8>,
    graph: Graph,
    trust: Trust,
    list: StepList<ClearTask>,
    ends: Vec<usize>,
    answers: Vec<Three<Option<u32>>>,
}

impl Model for Plan {
    ghost use Rattle.lowering.specs.Plan as seen;

    ghost Value = { seen.Plan };

    ghost use Rattle.lowering.specs.PlanInside.{plan_of, IsKept};

    ghost view = { plan_of };

    ghost invariant = { IsKept };
}

impl Plan {
    /// A plan of these parts.
    pub(crate) fn new(
        text: Vec<u8>,
        graph: Graph,
        trust: Trust,
        list: StepList<ClearTask>,
        ends: Vec<usize>,
        answers: Vec<Three<Option<u32>>>,
    ) -> Plan
        requires trust { trust ≡ trust_of graph.nodes }
        requires first { list.first ≡ first_lengths graph.nodes }
        requires built { unbuilt graph ≡ None }
        ensures { result ≡ record { text = text.items; graph = graph; list = list; ends = ends.items; answers = answers.items } }
    {
        Plan {
            text,
            graph,
            trust,
            list,
            ends,
            answers,
        }
    }

    /// The query's text.
    pub fn text(&self) -> &[u8]
        ensures { result.now ≡ self.now.text }
    {
        self.text.as_slice()
    }

    /// The query's graph.
    pub fn graph(&self) -> &Graph
        ensures { result.now ≡ self.now.graph }
    {
        &self.graph
    }

    /// Who may know what of the graph.
    pub fn trust(&self) -> &Trust
        ensures { result.now ≡ trust_of self.now.graph.nodes }
    {
        &self.trust
    }

    /// The list of steps; its first slots are those of the query's relations, and nothing of the query isn't built.
    pub fn list(&self) -> &StepList<ClearTask>
        ensures list { result.now ≡ self.now.list }
        ensures first { self.now.list.first ≡ first_lengths self.now.graph.nodes }
        ensures built { unbuilt self.now.graph ≡ None }
    {
        &self.list
    }

    /// The number of the first answer slot of an output at a party, `None` where the party is no recipient.
    pub(crate) fn answer_at(&self, output: u32, party: Party) -> Option<u32>
        ensures { result ≡ answer_at self.now output party }
    {
        match self.answers.get(output as usize) {
            Some(slots) => *slots.at(party),
            None => None,
        }
    }
}
