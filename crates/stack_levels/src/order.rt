use crate::table::{FirstReached, LevelTable};
use book_base::{Call, MAX_CALLERS, MAX_CALLS, NoMemory};
use std::alloc::Global;

// More steps than are needed to read back an order of a book's calls.
const STEPS: u64 = 8 * MAX_CALLERS as u64 * MAX_CALLS + 8;

/// A part of the order that is still to be read back.
#[derive(Clone, Copy)]
enum Task {
    /// The calls that lead to a node from the start.
    ToNode(usize),
    /// Of the calls that lead to a node from the start, those that follow the first put of its
    /// level; where its level is the bottom, all of them.
    InLevel(usize),
    /// The calls that lead to the first put of a level from the start, and this put; none for the
    /// bottom.
    ToLevel(usize),
    /// One call.
    One(Call),
}

/// The calls that lead from the start to a node, in order.
pub fn calls_to(alloc: Global, table: &LevelTable, place: usize) -> Result<Vec<Call>, NoMemory> {
    let mut tasks = vec![in alloc; Task::ToNode(place)]?;
    let mut calls = Vec::new(alloc);
    for _ in 0..STEPS {
        match tasks.pop() {
            Some(Task::ToNode(place)) => {
                if let Some(node) = table.nodes.get_index(place) {
                    tasks.push(Task::ToLevel(node.level))?;
                    tasks.push(Task::InLevel(place))?;
                }
            }
            Some(Task::InLevel(place)) => read_in_level(table, place, &mut tasks, &mut calls)?,
            Some(Task::ToLevel(level)) => read_to_level(table, level, &mut tasks, &mut calls)?,
            Some(Task::One(call)) => calls.push(call)?,
            None => break,
        }
    }
    calls.reverse();
    Ok(calls)
}

// Reads back the last call that leads to a node within its level, and adds what leads to this call
// to the tasks. The calls are read from the last one to the first.
fn read_in_level(
    table: &LevelTable,
    place: usize,
    tasks: &mut Vec<Task>,
    calls: &mut Vec<Call>,
) -> Result<(), NoMemory> {
    match table.reached.get(place) {
        Some(FirstReached::Stays(from, call)) => {
            calls.push(*call)?;
            tasks.push(Task::InLevel(*from))?;
        }
        Some(FirstReached::Returns(level, put, take)) => {
            if let Some(level) = table.levels.get(*level)
                && let Some(origin) = level.origins.get(*put)
                && let Some(ending) = level.endings.get(*take)
            {
                calls.push(ending.take)?;
                tasks.push(Task::InLevel(origin.node))?;
                tasks.push(Task::One(origin.put))?;
                tasks.push(Task::InLevel(ending.node))?;
            }
        }
        Some(FirstReached::Begins) | None => {}
    }
    Ok(())
}

// Reads back the first put of a level, and adds what leads to this put to the tasks.
fn read_to_level(
    table: &LevelTable,
    level: usize,
    tasks: &mut Vec<Task>,
    calls: &mut Vec<Call>,
) -> Result<(), NoMemory> {
    if let Some(level) = table.levels.get(level)
        && let Some(origin) = level.origins.first()
    {
        calls.push(origin.put)?;
        tasks.push(Task::ToNode(origin.node))?;
    }
    Ok(())
}
