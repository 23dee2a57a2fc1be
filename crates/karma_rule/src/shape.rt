//! The shape of a pool: its fixed numbers, tested against their limits.

ghost use Rattle.std.specs.Prelude.{◌≡◌, ◌≤◌, IfOk, IfErr};
ghost use Rattle.karma_rule.specs.Limits.{shape_of, IsPlan, IsStore, IsFirstBroken};

use crate::limits::{
    LEAST_SLICE, MOST_BYTES, MOST_CREDITS, MOST_FAIR, MOST_ROOM, MOST_SLICE, MOST_USERS,
};
use crate::row::Share;
use std::error::Error;
use std::fmt;

/// The fixed numbers of a pool: how many users share it, what each has a right to, the credits that each starts
/// with, and the size of a slice in bytes, which is 0 where slices are only counted.
///
/// `docs/RULES.md` has the limits.
#[derive(Clone, Copy, Debug, PartialEq, Eq)]
pub struct Shape {
    pub users: u32,
    pub share: Share,
    pub credits: u64,
    pub slice: u32,
}

/// A limit that the numbers of a shape break.
///
/// `place` names the first: 1 the users, 2 the fair share, 3 the floor, 4 the starting credits, 5 the size of a
/// slice, 6 one of the two products (the bytes of all slices, and the room that all users reserve).
#[derive(Clone, Copy, Debug, PartialEq, Eq)]
pub struct BadShape {
    pub place: u8,
}

impl fmt::Display for BadShape {
    fn fmt<W: fmt::Write>(&self, f: &mut fmt::Formatter<W>) -> fmt::Result {
        match self.place {
            1 => write!(f, "a pool has 1 to {MOST_USERS} users"),
            2 => write!(f, "a fair share is 1 to {MOST_FAIR} slices"),
            3 => f.write_str("the floor is at most the fair share"),
            4 => write!(f, "a user starts with at most {MOST_CREDITS} credits"),
            5 => write!(f, "a slice has {LEAST_SLICE} to {MOST_SLICE} bytes"),
            _ => write!(
                f,
                "all slices have at most {MOST_BYTES} bytes, and all users room for at most {MOST_ROOM} slices"
            ),
        }
    }
}

impl Error for BadShape {}

impl Shape {
    /// The shape of a plan, which only counts slices: its slice size is 0.
    pub fn plan(users: u64, fair: u64, floor: u64, credits: u64) -> Result<Shape, BadShape>
        ensures shape { IfOk result (λ shape. shape ≡ shape_of users fair floor credits 0) }
        ensures within { IfOk result IsPlan }
        ensures broken { IfErr result (λ bad.
            IsFirstBroken (shape_of users fair floor credits 0) bad.place) }
        ensures of_plan { IfErr result (λ bad. bad.place ≤ 4) }
    {
        if users < 1 || users > MOST_USERS {
            return Err(BadShape { place: 1 });
        }
        if fair < 1 || fair > MOST_FAIR {
            return Err(BadShape { place: 2 });
        }
        if floor > fair {
            return Err(BadShape { place: 3 });
        }
        if credits > MOST_CREDITS {
            return Err(BadShape { place: 4 });
        }
        Ok(Shape {
            users: users as u32,
            share: Share { fair, floor },
            credits,
            slice: 0,
        })
    }

    /// The shape of a store, whose slices have `slice` bytes each.
    pub fn store(
        users: u64,
        fair: u64,
        floor: u64,
        credits: u64,
        slice: u64,
    ) -> Result<Shape, BadShape>
        ensures shape { IfOk result (λ shape. shape ≡ shape_of users fair floor credits slice) }
        ensures within { IfOk result IsStore }
        ensures broken { IfErr result (λ bad.
            IsFirstBroken (shape_of users fair floor credits slice) bad.place) }
    {
        let plan = Shape::plan(users, fair, floor, credits)?;
        if slice < LEAST_SLICE || slice > MOST_SLICE {
            return Err(BadShape { place: 5 });
        }
        let slices = users * fair;
        if slices * slice > MOST_BYTES || users * slices > MOST_ROOM {
            return Err(BadShape { place: 6 });
        }
        Ok(Shape {
            slice: slice as u32,
            ..plan
        })
    }
}
