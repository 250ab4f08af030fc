//! A report, as its contents.

use crate::figure::{Figure, HorizonCount};
use std::marker::Model;

/// A report of samples, without its network. It is seen as its contents.
#[derive(Drop)]
pub struct Report {
    /// The number of samples.
    pub samples: u64,
    /// The number of those that are met.
    pub met: u64,
    /// The horizons in the order of their rows, with how many samples have each.
    pub horizons: Vec<HorizonCount>,
    /// The figures of the queues and of the rewards, in the order of their rows.
    pub figures: Vec<Figure>,
}

impl Model for Report {
    ghost use Rattle.psi_report.specs.Contents.{Contents};

    ghost Value = { Contents };

    ghost view = { λ r. record { samples = r.samples; met = r.met; horizons = r.horizons.items; figures = r.figures.items } };
}
