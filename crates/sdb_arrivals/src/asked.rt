//! A request that was read.

ghost use Rattle.std.specs.Prelude.{◌≡◌};
ghost use Rattle.sdb_action.specs.Lawful.{IsLawfulRequest};

use sdb_action::Request;
use std::marker::Model;

/// A request within the limits of requests, as each is that is read of parameters.
#[derive(Debug, Drop)]
pub struct Asked {
    request: Request,
}

impl Model for Asked {
    ghost use Rattle.sdb_action.specs.Lawful.{IsLawfulRequest};
    ghost use Rattle.sdb_action.specs.declared.request.Request.{Request};

    ghost Value = { Request };

    ghost view = { λ it. it.request };

    ghost invariant = { λ it. IsLawfulRequest it.request };
}

impl Asked {
    /// Takes a request that is within the limits.
    pub fn new(request: Request) -> Asked
        requires { IsLawfulRequest request }
        ensures { result ≡ request }
    {
        Asked { request }
    }

    /// The request.
    pub fn request(&self) -> &Request
        ensures same { result.now ≡ self.now }
        ensures lawful { IsLawfulRequest self.now }
    {
        &self.request
    }
}
