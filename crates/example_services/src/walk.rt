//! A walk of a tree: each job looks at a node, and forks a job for each of its three children, six levels deep. The first
//! that finds what is sought ends the others.

use balkreyn::act::*;
use balkreyn::*;
use std::rt::Clock as SystemTime;

/// A node: the path to it in base four, and how many levels are below.
#[derive(Clone, Copy)]
struct Node {
    path: u32,
    below: u32,
}

impl Yields for Node {
    type Value = u32;

    type Error = Refusal;

    ghost is_fact = { λ name value. Prim.hlevel };
}

impl TypedTask<Typed<Node>> for Node {
    fn run_typed<X: Acts<Typed<Node>>>(self, cx: &mut X, name: Name) -> Result<u32, Refusal> {
        if self.path == SOUGHT {
            return Ok(self.path);
        }
        let Some(below) = self.below.checked_sub(1) else {
            return Err(Refusal::Unavailable);
        };
        let mut children = Vec::new(cx.alloc());
        for child in 1..=3u32 {
            let path = self.path.saturating_mul(4).saturating_add(child);
            children.push(Node { path, below })?;
        }
        race(cx, name, Options::PLAIN, children)?.into_result()
    }
}

/// The path of the node that is sought: to the third child, the first, the second, and the third again.
const SOUGHT: u32 = 219;

/// The walk, from the root.
#[derive(Clone, Copy)]
struct Walk;

impl ServiceAnswer for Walk {
    type Answer = u32;

    type Error = ServiceError;
}

impl Serves<Typed<Node>> for Walk {
    fn serve<X: Acts<Typed<Node>>>(self, cx: &mut X) -> Result<u32, ServiceError> {
        let mut root = Vec::new(cx.alloc());
        root.push(Node { path: 0, below: 6 })?;
        Ok(race(cx, named(b"node"), Options::PLAIN, root)?.into_result()?)
    }
}

/// Walks, and prints the path of what was found.
pub fn show<R: PoolRuntime + SystemTime>(rt: &R, io: HostRuntime) -> std::io::Result<()> {
    match serve::<Typed<Node>, (), Walk, R>(rt, io.alloc(), 64, Hooks::none(), Walk) {
        Ok(path) => println!(io; "walk: found {path}"),
        Err(failed) => println!(io; "walk: {failed}"),
    }
}
