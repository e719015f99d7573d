//! A graph, as the successors of each vertex.

ghost use Rattle.std.specs.Prelude.{◌≡◌, ◌+◌, ◌<◌, [], ◌∷◌, ◌++◌, length, replicate, slice_set, IfOk, OnOk, OnErr};
ghost use Rattle.std.specs.List.{All};
ghost use Rattle.graph.specs.Rows.{rows_of, successors_of};

use std::alloc::{AllocError, Global};
use std::marker::Model;

/// A directed graph, whose vertices are the numbers below its length.
#[derive(Drop)]
pub struct Graph {
    rows: Vec<Vec<usize>>,
}

impl Model for Graph {
    ghost use Rattle.std.specs.Prelude.{List, ℕ};
    ghost use Rattle.graph.specs.Rows.{rows_of, IsClosed};

    ghost Value = { List (List ℕ) };

    ghost view = { λ g. rows_of g.rows.items };

    ghost invariant = { λ g. IsClosed (rows_of g.rows.items) };
}

impl Graph {
    /// A graph of `count` vertices and no edge.
    ///
    /// # Errors
    /// Where memory runs out.
    pub fn new(alloc: Global, count: usize) -> Result<Graph, AllocError>
        ensures rows { IfOk result (λ graph. graph ≡ replicate count []) }
        ensures len { IfOk result (λ graph. length graph ≡ count) }
    {
        let mut rows = Vec::with_capacity(alloc, count)?;
        add_rows(alloc, count, &mut rows)?;
        Ok(Graph { rows })
    }

    /// Adds an edge, after those that the vertex has.
    ///
    /// # Errors
    /// Where memory runs out; the graph is as it was.
    pub fn add(&mut self, from: usize, to: usize) -> Result<(), AllocError>
        requires from { from < length self.old }
        requires to { to < length self.old }
        ensures ok { OnOk result (self.new ≡ slice_set self.old from (successors_of self.old from ++ to ∷ [])) }
        ensures err { OnErr result (self.new ≡ self.old) }
        ensures len { length self.new ≡ length self.old }
    {
        self.rows[from].push(to)?;
        Ok(())
    }

    /// How many vertices it has.
    pub fn len(&self) -> usize
        ensures { result ≡ length self.now }
    {
        self.rows.len()
    }

    /// Where the vertex has edges to, in the order in which they were added. None for a number that is no vertex.
    pub fn successors(&self, vertex: usize) -> &[usize]
        ensures value { result.now ≡ successors_of self.now vertex }
        ensures within { All (λ v. v < length self.now) result.now }
    {
        match self.rows.get(vertex) {
            Some(row) => row.as_slice(),
            None => &[],
        }
    }
}

/// Adds a row without successors for each of `count` vertices.
fn add_rows(alloc: Global, count: usize, rows: &mut Vec<Vec<usize>>) -> Result<(), AllocError>
    requires { rows.old.items ≡ [] }
    ensures { OnOk result (rows_of rows.new.items ≡ replicate count []) }
{
    for _ in 0..count {
        rows.push(Vec::new(alloc))?;
    }
    Ok(())
}
