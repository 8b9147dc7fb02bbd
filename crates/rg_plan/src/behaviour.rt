//! Behaviours of a plan (docs/architecture.md, "Plans").

ghost use Rattle.std.specs.Prelude.{◌≡◌};

use rg_base::ByteList;
use std::marker::Model;

/// A behaviour: `when C.m N N ..`. It runs the method m on a new object of the class C, each `iso`
/// field of which holds the content of a cown.
#[derive(Drop)]
pub struct Behaviour {
    class: u32,
    method: u32,
    name: ByteList,
    cowns: Vec<u32>,
}

impl Model for Behaviour {
    ghost use Rattle.rg_plan.specs.Plans.{Turn};

    ghost Value = { Turn };

    ghost view = { λ b. record {
      class = b.class;
      method = b.method;
      name = b.name;
      cowns = b.cowns.items;
    } };
}

impl Behaviour {
    /// A behaviour of these parts.
    pub(crate) fn new(class: u32, method: u32, name: ByteList, cowns: Vec<u32>) -> Behaviour
        ensures { result
            ≡ record { class = class; method = method; name = name; cowns = cowns.items } }
    {
        Behaviour {
            class,
            method,
            name,
            cowns,
        }
    }

    /// The number of its class.
    pub fn class(&self) -> u32
        ensures { result ≡ self.now.class }
    {
        self.class
    }

    /// The number of its method among all methods of the program.
    pub fn method(&self) -> u32
        ensures { result ≡ self.now.method }
    {
        self.method
    }

    /// `C.m`, as the plan names it.
    pub fn name(&self) -> &[u8]
        ensures { result.now ≡ self.now.name }
    {
        self.name.bytes()
    }

    /// The numbers of its cowns.
    pub fn cowns(&self) -> &[u32]
        ensures { result.now ≡ self.now.cowns }
    {
        self.cowns.as_slice()
    }
}
