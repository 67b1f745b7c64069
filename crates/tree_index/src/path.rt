//! Paths from the root of a tree to its nodes.

use ag_grammar::limits::MAX_DEPTH;
use ag_value::NoMemory;
use std::alloc::Global;
use std::fmt;
use thiserror::Error;

/// A run of a path: the same place, one or more times.
#[derive(Clone, Copy, PartialEq, Eq)]
struct Run {
    /// The place, from 1.
    place: u16,
    /// The number of times that the place occurs, from 1.
    count: u32,
}

/// A path from the root: the places of children, from 1. As text, the path of the root is `/`. The
/// path of the first child of its second child is `/2/1`. `/1*897/2` is 897 times the first child,
/// and then the second.
#[derive(Drop)]
pub struct NodePath {
    runs: Vec<Run>,
}

/// Why a text is not a path.
#[derive(Clone, Copy, Debug, PartialEq, Eq, Error)]
pub enum PathFault {
    /// The text does not have the form of a path.
    #[error("path: the text is not a path")]
    NotAPath,
    /// Memory was refused.
    #[error("NoMemory a request for memory was refused")]
    NoMemory,
}

impl NodePath {
    /// Returns the path of the root.
    pub fn root(alloc: Global) -> NodePath {
        NodePath {
            runs: Vec::new(alloc),
        }
    }

    /// Extends the path to a child, by its place from 1. Fails if memory is refused.
    pub fn push(&mut self, place: u16) -> Result<(), NoMemory> {
        if self.extend(place) {
            return Ok(());
        }
        Ok(self.runs.push(Run { place, count: 1 })?)
    }

    /// Makes the last run longer by one if it is a run of this place. Returns false otherwise.
    fn extend(&mut self, place: u16) -> bool {
        match self.runs.last_mut() {
            Some(run) if run.place == place => {
                run.count = run.count.saturating_add(1);
                true
            }
            _ => false,
        }
    }

    /// Removes the last place, so that the path is that of the parent; does nothing at the root.
    pub fn pop(&mut self) {
        if !self.shorten() {
            let _last = self.runs.pop();
        }
    }

    /// Makes the last run shorter by one if its count is above 1. Returns false otherwise.
    fn shorten(&mut self) -> bool {
        match self.runs.last_mut() {
            Some(run) if 1 < run.count => {
                run.count -= 1;
                true
            }
            _ => false,
        }
    }

    /// Reads a path: `/` for the root, or one or more runs, each after a `/`. A run is a place,
    /// which may be followed by `*` and the number of repetitions. Both numbers are from 1 to
    /// 65,535, and may begin with `+` or zeros. `/1/1/1` has the same places as `/1*3`, but is not
    /// printed as `/1*3`. Fails with `NotAPath` for any other text, such as `/1/`, and with
    /// `NoMemory` if memory is refused.
    pub fn parse(alloc: Global, text: &str) -> Result<NodePath, PathFault> {
        let Some(rest) = text.strip_prefix('/') else {
            return Err(PathFault::NotAPath);
        };
        let mut path = NodePath::root(alloc);
        if rest.is_empty() {
            return Ok(path);
        }
        for part in rest.split('/') {
            let Some(run) = run_of(part) else {
                return Err(PathFault::NotAPath);
            };
            let Ok(()) = path.runs.push(run) else {
                return Err(PathFault::NoMemory);
            };
        }
        Ok(path)
    }

    /// Returns the places of the path, from the root down. Fails if memory is refused.
    pub fn places(&self, alloc: Global) -> Result<Vec<u16>, NoMemory> {
        let mut places = Vec::new(alloc);
        for run in self.runs.as_slice() {
            for _ in 0..run.count {
                places.push(run.place)?;
            }
        }
        Ok(places)
    }

    /// Returns the path with the given places, from the root down. Fails if memory is refused.
    pub fn of_places(alloc: Global, places: &[u16]) -> Result<NodePath, NoMemory> {
        let mut path = NodePath::root(alloc);
        for place in places {
            path.push(*place)?;
        }
        Ok(path)
    }
}

/// Reads the text of a run: a place, which may be followed by `*` and the number of repetitions.
/// Returns `None` for any other text, and if a number is out of range. The number of repetitions is
/// below `MAX_DEPTH`, since a path in a tree has fewer than `MAX_DEPTH` places.
fn run_of(part: &str) -> Option<Run> {
    let (place, count) = match part.split_once('*') {
        Some((place, count)) => (number_in(place)?, number_in(count)?),
        None => (number_in(part)?, 1),
    };
    let place = u16::try_from(place).ok()?;
    if place == 0 || count == 0 || MAX_DEPTH as u32 <= count {
        return None;
    }
    Some(Run { place, count })
}

/// Reads a decimal number, which may begin with `+` or zeros.
fn number_in(text: &str) -> Option<u32> {
    text.parse::<u32>().ok()
}

impl fmt::Display for NodePath {
    fn fmt<W: fmt::Write>(&self, f: &mut fmt::Formatter<W>) -> fmt::Result {
        if self.runs.is_empty() {
            return f.write_str("/");
        }
        for run in self.runs.as_slice() {
            write_run(f, *run)?;
        }
        Ok(())
    }
}

/// Writes a run: `/2` for one place, `/2/2` for two, and `/2*3` for three; a greater count
/// likewise.
fn write_run<W: fmt::Write>(f: &mut fmt::Formatter<W>, run: Run) -> fmt::Result {
    let Run { place, count } = run;
    match count {
        1 => write!(f, "/{place}"),
        2 => write!(f, "/{place}/{place}"),
        _ => write!(f, "/{place}*{count}"),
    }
}
