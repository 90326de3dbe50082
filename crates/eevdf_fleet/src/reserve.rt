use crate::board::Token;
use crate::names::Names;
use crate::rings::ReturnedEnds;
use crate::seat_parts::SeatParts;
use eevdf_queue::Queue;
use std::marker::Model;

/// Room for what is given when a fleet is closed: the queues, the seats, and the ends of the rings. The token claims nothing.
#[derive(Drop)]
pub(crate) struct Reserve<N: Names> {
    pub(crate) queues: Vec<Queue>,
    pub(crate) seats: Vec<SeatParts<N>>,
    pub(crate) ends: ReturnedEnds<N>,
    pub(crate) token: Token,
}

impl<N: Names> Model for Reserve<N> {
    ghost use Rattle.std.specs.Prelude.{◌≡◌, ◌≤◌, [], vec_capacity, vec_len};
    ghost use Rattle.eevdf_ops.specs.Setup.{cpus_of};
    ghost use Rattle.eevdf_fleet.specs.{Board.IsToken, Board.claims_of, Fleets.setup_of};

    ghost Value = { Unit {0} };

    ghost view = { λ r. tt };

    ghost invariant = { λ r. (vec_len r.queues ≡ cpus_of (setup_of N.kit))
        × (r.ends ≡ record { cpus = cpus_of (setup_of N.kit); posts = []; takes = [] })
        × (r.seats.items ≡ [])
        × (cpus_of (setup_of N.kit) ≤ vec_capacity r.seats)
        × IsToken N.kit.board N.kit.terms r.token
        × (claims_of r.token ≡ []) };
}
