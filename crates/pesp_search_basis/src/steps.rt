//! The steps of paths.

use crate::graph::Graph;
use crate::growth::add;
use crate::ways::Ways;
use pesp_base::Memory;
use pesp_search_graph::Step;

/// Reverses a walk.
pub(crate) fn turn_round(steps: &mut [Step]) {
    steps.reverse();
    for step in steps.iter_mut() {
        step.along = !step.along;
    }
}

impl Ways {
    /// The last step of the path to a node, reversed, and the node before.
    fn step_back(&self, graph: &Graph, node: usize) -> Option<(Step, usize)> {
        let arc = self.last(node)?;
        let link = graph.link(arc)?;
        let step = Step {
            arc,
            along: link.from == node,
        };
        Some((step, link.other(node)))
    }

    /// The node where the paths to two nodes diverge, and the number of steps of both after it.
    pub(crate) fn fork(&self, graph: &Graph, from: usize, to: usize) -> Option<(usize, usize)> {
        let (mut near, mut far) = (from, to);
        for steps in 0..graph.size() {
            if near == far {
                return Some((near, steps));
            }
            if self.length(far) < self.length(near) {
                (near, far) = (far, near);
            }
            far = self.step_back(graph, far)?.1;
        }
        None
    }

    /// Appends the steps from a node back along its path, up to another node.
    pub(crate) fn add_back(
        &self,
        graph: &Graph,
        node: usize,
        until: usize,
        steps: &mut Vec<Step>,
    ) -> Result<(), Memory> {
        let mut node = node;
        for _step in 0..graph.size() {
            if node == until {
                return Ok(());
            }
            let Some((step, before)) = self.step_back(graph, node) else {
                return Ok(());
            };
            add(steps, step)?;
            node = before;
        }
        Ok(())
    }

    /// Writes the cycle of an arc and the paths to its ends, from where these diverge.
    ///
    /// Writes no step if the paths have no common node.
    pub(crate) fn write_cycle(
        &self,
        graph: &Graph,
        arc: usize,
        steps: &mut Vec<Step>,
    ) -> Result<(), Memory> {
        steps.clear();
        let Some(link) = graph.link(arc) else {
            return Ok(());
        };
        let Some((fork, _)) = self.fork(graph, link.from, link.to) else {
            return Ok(());
        };
        self.add_back(graph, link.from, fork, steps)?;
        turn_round(steps.as_mut_slice());
        add(steps, Step { arc, along: true })?;
        self.add_back(graph, link.to, fork, steps)
    }
}
