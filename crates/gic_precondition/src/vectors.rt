//! The vectors of conjugate gradients.
use crate::preconditioning::precondition;
use crate::products::{add_multiple, dot, multiply_add, put_currents, ratio};
use crate::scaling::put_scaled;
use crate::system::System;
use gic_base::OutOfMemory;
use std::alloc::Global;
use std::marker::Model;

/// The vectors of conjugate gradients, a number a node each. They are seen as the number of nodes.
pub struct Vectors {
    /// The currents that are not balanced yet.
    currents: Vec<i64>,
    /// The potentials that balance the others.
    potentials: Vec<i64>,
    /// The direction in which the potentials move.
    direction: Vec<i64>,
    /// What the factors make of the currents.
    guess: Vec<i64>,
    /// The currents that the direction makes.
    drawn: Vec<i64>,
}

impl Model for Vectors {
    ghost use Rattle.std.specs.Prelude.{ℕ, ◌≡◌, length};

    ghost Value = { ℕ };

    ghost view = { λ v. length v.currents.items };

    ghost invariant = { λ v.
        (length v.potentials.items ≡ length v.currents.items)
        × (length v.direction.items ≡ length v.currents.items)
        × (length v.guess.items ≡ length v.currents.items)
        × (length v.drawn.items ≡ length v.currents.items) };
}

impl Drop for Vectors {
    /// Lets go of everything, in one step for whoever drops it.
    fn drop(self) {
        let Vectors {
            currents: _currents,
            potentials: _potentials,
            direction: _direction,
            guess: _guess,
            drawn: _drawn,
        } = self;
    }
}

ghost use Rattle.std.specs.Prelude.{◌≡◌, ◌<◌, ◌≤◌, IfOk, length, replicate, pos};

impl Vectors {
    /// For a network of this many nodes.
    pub(crate) fn new(alloc: Global, nodes: u16) -> Result<Vectors, OutOfMemory>
        ensures { IfOk result (λ vectors. vectors ≡ nodes) }
    {
        Ok(Vectors {
            currents: zeros(alloc, nodes)?,
            potentials: zeros(alloc, nodes)?,
            direction: zeros(alloc, nodes)?,
            guess: zeros(alloc, nodes)?,
            drawn: zeros(alloc, nodes)?,
        })
    }

    /// Takes currents in units of `2 ^ down`.
    pub(crate) fn take(&mut self, currents: &[i128], down: u32)
        requires currents { length currents.now ≡ self.old }
        requires down { down < 128 }
        ensures { self.new ≡ self.old }
    {
        put_scaled(currents, down, self.currents.as_mut_slice());
    }

    /// The potential at a node.
    pub(crate) fn potential(&self, node: u16) -> i64
        requires { node < self.now }
    {
        self.potentials[node as usize]
    }

    /// What the factors make of the currents. It returns the product of both.
    fn guess(&mut self, system: &System, lift: u32) -> i128
        requires { self.old ≡ system.now }
        ensures { self.new ≡ self.old }
    {
        self.guess.copy_from_slice(self.currents.as_slice());
        precondition(system, lift, self.guess.as_mut_slice());
        dot(self.currents.as_slice(), self.guess.as_slice())
    }

    /// Begins with potentials 0, in the direction that the factors tell. It returns how far the currents are from 0.
    pub(crate) fn begin(&mut self, system: &System, lift: u32) -> i128
        requires { self.old ≡ system.now }
        ensures { self.new ≡ self.old }
    {
        self.potentials.fill(0);
        let far = self.guess(system, lift);
        self.direction.copy_from_slice(self.guess.as_slice());
        far
    }

    /// Moves the potentials along the direction, from currents that are so far from 0. It returns how far they are then.
    pub(crate) fn advance(&mut self, system: &System, lift: u32, far: i128) -> i128
        requires nodes { self.old ≡ system.now }
        requires lift { lift < 128 }
        ensures { self.new ≡ self.old }
    {
        put_currents(
            system.wires(),
            self.direction.as_slice(),
            lift,
            self.drawn.as_mut_slice(),
        );
        let factor = ratio(far, dot(self.direction.as_slice(), self.drawn.as_slice()));
        add_multiple(
            self.potentials.as_mut_slice(),
            self.direction.as_slice(),
            factor,
        );
        add_multiple(self.currents.as_mut_slice(), self.drawn.as_slice(), -factor);
        self.guess(system, lift)
    }

    /// Turns the direction, where the currents are so much less far from 0 now.
    pub(crate) fn turn(&mut self, before: i128, now: i128)
        ensures { self.new ≡ self.old }
    {
        multiply_add(
            self.direction.as_mut_slice(),
            self.guess.as_slice(),
            ratio(now, before),
        );
    }
}

fn zeros(alloc: Global, nodes: u16) -> Result<Vec<i64>, OutOfMemory>
    ensures { IfOk result (λ zeros. zeros.items ≡ replicate nodes (pos 0)) }
{
    let zeros = vec![in alloc; 0; nodes as usize]?;
    Ok(zeros)
}
