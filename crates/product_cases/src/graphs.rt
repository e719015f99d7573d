//! Graphs of numbered vertices, and what is answered of them.

use crate::answer::Answer;
use graph::{Arrangement, Graph, Visited, arrange, reach};
use std::str::SplitWhitespace;

/// Given are lines: `vertices COUNT`, then `edge FROM TO`, `chain`, which has each vertex lead to the next, and
/// `diamonds COUNT`, each of three vertices that lead to the next one's first.
///
/// Asked is `arrange`, for the order or the least vertex on a cycle; `arrange all`, for whether the order has all
/// vertices, each after its successors; or `reach VERTEX` and `reach VERTEX cleared`, for what is reached.
pub fn ask(answer: &mut Answer, given: &str, asked: &str) {
    let (first, lines) = given.split_once('\n').unwrap_or((given, ""));
    let (_, count) = first.split_once(' ').unwrap_or(("", ""));
    let Ok(mut graph) = Graph::new(answer.alloc, count.parse().unwrap_or(0)) else {
        return answer.refuse();
    };
    add_lines(answer, &mut graph, lines);
    of_graph(answer, &graph, asked)
}

fn add_lines(answer: &mut Answer, graph: &mut Graph, lines: &str) {
    for line in lines.lines() {
        add_line(answer, graph, line.split_whitespace());
    }
}

fn add_line(answer: &mut Answer, graph: &mut Graph, mut words: SplitWhitespace<'_>) {
    match words.next() {
        Some("edge") => link(answer, graph, number(words.next()), number(words.next())),
        Some("chain") => add_chain(answer, graph),
        _ => add_diamonds(answer, graph, number(words.next())),
    }
}

fn number(word: Option<&str>) -> usize {
    word.unwrap_or("").parse().unwrap_or(0)
}

/// Adds an edge, where both are vertices.
fn link(answer: &mut Answer, graph: &mut Graph, from: usize, to: usize) {
    if from < graph.len() && to < graph.len() {
        answer.note(graph.add(from, to));
    }
}

fn add_chain(answer: &mut Answer, graph: &mut Graph) {
    for vertex in 1..graph.len() {
        link(answer, graph, vertex - 1, vertex);
    }
}

fn add_diamonds(answer: &mut Answer, graph: &mut Graph, count: usize) {
    for level in 0..count.min(1000) {
        link(answer, graph, 3 * level, 3 * level + 1);
        link(answer, graph, 3 * level, 3 * level + 2);
        link(answer, graph, 3 * level + 1, 3 * level + 3);
        link(answer, graph, 3 * level + 2, 3 * level + 3);
    }
}

fn of_graph(answer: &mut Answer, graph: &Graph, asked: &str) {
    match asked.split_once(' ') {
        None => add_arrangement(answer, graph, false),
        Some(("arrange", _)) => add_arrangement(answer, graph, true),
        Some((_, vertex)) => add_reached(answer, graph, vertex),
    }
}

fn add_arrangement(answer: &mut Answer, graph: &Graph, is_large: bool) {
    match arrange(answer.alloc, graph) {
        Ok(Arrangement::Order(order)) if is_large => check_order(answer, graph, &order),
        Ok(Arrangement::Order(order)) => {
            answer.word("order");
            add_vertices(answer, &order)
        }
        Ok(Arrangement::Cycle(vertex)) => {
            answer.word("a circle at ");
            answer.show(&vertex)
        }
        Err(_) => answer.refuse(),
    }
}

fn add_vertices(answer: &mut Answer, vertices: &[usize]) {
    for vertex in vertices {
        answer.word(" ");
        answer.show(vertex);
    }
}

/// How many vertices an order has, each once and after its successors; or what is wrong with it.
fn check_order(answer: &mut Answer, graph: &Graph, order: &[usize]) {
    let Ok(mut are_before) = vec![in answer.alloc; false; graph.len()] else {
        return answer.refuse();
    };
    match first_out_of_order(graph, order, &mut are_before) {
        Some(vertex) => {
            answer.show(&vertex);
            answer.word(" before a successor")
        }
        None => {
            answer.show(&count_of(&are_before));
            answer.word(" of ");
            answer.show(&order.len());
            answer.word(" in order")
        }
    }
}

fn count_of(marks: &[bool]) -> u64 {
    let mut count = 0u64;
    for mark in marks {
        count = count.saturating_add(u64::from(*mark));
    }
    count
}

/// The first vertex that is not after all its successors. Those before it are marked.
fn first_out_of_order(graph: &Graph, order: &[usize], are_before: &mut [bool]) -> Option<usize> {
    for vertex in order {
        if !is_after_successors(graph, *vertex, are_before) {
            return Some(*vertex);
        }
        if let Some(mark) = are_before.get_mut(*vertex) {
            *mark = true;
        }
    }
    None
}

/// Whether all successors of a vertex are among those before it.
fn is_after_successors(graph: &Graph, vertex: usize, are_before: &[bool]) -> bool {
    for successor in graph.successors(vertex) {
        if !are_before.get(*successor).copied().unwrap_or(false) {
            return false;
        }
    }
    true
}

fn add_reached(answer: &mut Answer, graph: &Graph, words: &str) {
    let (vertex, is_cleared) = match words.strip_suffix(" cleared") {
        Some(vertex) => (vertex, true),
        None => (words, false),
    };
    let vertex = vertex.parse().unwrap_or(usize::MAX);
    if vertex >= graph.len() {
        return answer.word("no vertex");
    }
    match reach(answer.alloc, graph, vertex) {
        Ok(visited) => add_visited(answer, graph, visited, is_cleared),
        Err(_) => answer.refuse(),
    }
}

/// How many members a set has, and which.
fn add_visited(answer: &mut Answer, graph: &Graph, mut visited: Visited, is_cleared: bool) {
    if is_cleared {
        visited.clear();
    }
    answer.show(&visited.len());
    answer.word(":");
    for vertex in 0..graph.len() {
        if visited.has(vertex) {
            answer.word(" ");
            answer.show(&vertex);
        }
    }
}
