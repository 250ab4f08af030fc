//! The report of running totals.

ghost use Rattle.std.specs.Prelude.{◌≡◌, ℕ, ◌≤◌, List, ◌++◌, length, map, IfOk, OnOk};
ghost use Rattle.psi_state.specs.declared.Outcome.{Outcome};
ghost use Rattle.psi_report.specs.Totals.{StandsFor};
ghost use Rattle.psi_report.specs.Report.{queue_trio, reward_trio, contents_of, report_text};
ghost use Rattle.psi_report.specs.Figures.{count_of, counts_of, range_figures, summary_figures, summaries_figures};

use crate::figure::{Figure, HorizonCount, Item};
use crate::report::Report;
use crate::summary::Summary;
use crate::tally::Tally;
use psi_net_model::{Name, Net, OutOfMemory};
use std::alloc::Global;

// What the figures of a quantity are.
#[derive(Clone, Copy)]
struct Trio {
    sum: Item,
    least: Item,
    greatest: Item,
}

// Adds how many samples have the horizon of 2 to this exponent, where any has it.
#[tactic(auto, unfolding(crate::specs::Figures::count_of))]
fn push_count(horizons: &mut Vec<HorizonCount>, exponent: u8, count: u32) -> Result<(), OutOfMemory>
    requires { exponent ≤ 22 }
    ensures { OnOk result (horizons.new.items ≡ horizons.old.items ++ count_of exponent count) }
{
    if count == 0 {
        return Ok(());
    }
    horizons.push(HorizonCount {
        horizon: 1u64 << exponent,
        count: count as u64,
    })?;
    Ok(())
}

// The horizons that samples have, ascending.
fn horizons_of(alloc: Global, counts: &[u32; 23]) -> Result<Vec<HorizonCount>, OutOfMemory>
    ensures { IfOk result (λ horizons. horizons.items ≡ counts_of 0 counts.now) }
{
    let mut horizons = Vec::new(alloc);
    for exponent in 0..23u8 {
        push_count(&mut horizons, exponent, counts[exponent as usize])?;
    }
    Ok(horizons)
}

// Adds the least and the greatest of values, where any sample is met.
#[tactic(auto, unfolding(crate::specs::Figures::range_figures))]
fn push_range(
    figures: &mut Vec<Figure>,
    trio: &Trio,
    name: Name,
    met: u32,
    summary: &Summary,
) -> Result<(), OutOfMemory>
    ensures { OnOk result (figures.new.items ≡ figures.old.items ++ range_figures (record { sum = trio.now.sum; least = trio.now.least; greatest = trio.now.greatest }) met name summary.now) }
{
    if met == 0 {
        return Ok(());
    }
    figures.push(Figure {
        item: trio.least,
        name,
        value: summary.least as i128,
    })?;
    figures.push(Figure {
        item: trio.greatest,
        name,
        value: summary.greatest as i128,
    })?;
    Ok(())
}

// Adds the figures of what values come to.
#[tactic(auto, unfolding(crate::specs::Figures::summary_figures))]
fn push_summary(
    figures: &mut Vec<Figure>,
    trio: &Trio,
    name: Name,
    met: u32,
    summary: &Summary,
) -> Result<(), OutOfMemory>
    ensures { OnOk result (figures.new.items ≡ figures.old.items ++ summary_figures (record { sum = trio.now.sum; least = trio.now.least; greatest = trio.now.greatest }) met name summary.now) }
{
    figures.push(Figure {
        item: trio.sum,
        name,
        value: summary.sum,
    })?;
    push_range(figures, trio, name, met, summary)
}

// Adds the figures of the queues.
fn push_queues(
    figures: &mut Vec<Figure>,
    net: &Net,
    met: u32,
    summaries: &[Summary],
) -> Result<(), OutOfMemory>
    requires { length summaries.now ≡ length net.now.queues }
    ensures { OnOk result (figures.new.items ≡ figures.old.items ++ summaries_figures queue_trio met (map (λ q. q.name) net.now.queues) summaries.now) }
{
    let trio = Trio {
        sum: Item::Sum,
        least: Item::Least,
        greatest: Item::Greatest,
    };
    for i in 0..net.queues() {
        push_summary(figures, &trio, net.name(i), met, &summaries[i as usize])?;
    }
    Ok(())
}

// Adds the figures of the rewards.
fn push_rewards(
    figures: &mut Vec<Figure>,
    net: &Net,
    met: u32,
    summaries: &[Summary],
) -> Result<(), OutOfMemory>
    requires { length summaries.now ≡ length net.now.rewards }
    ensures { OnOk result (figures.new.items ≡ figures.old.items ++ summaries_figures reward_trio met (map (λ r. r.name) net.now.rewards) summaries.now) }
{
    let trio = Trio {
        sum: Item::RewardSum,
        least: Item::RewardLeast,
        greatest: Item::RewardGreatest,
    };
    for r in 0..net.rewards() {
        let name = net.reward_name(r);
        push_summary(figures, &trio, name, met, &summaries[r as usize])?;
    }
    Ok(())
}

impl Tally {
    /// Returns the report of the samples: the numbers of samples and of those that are met; for each horizon that some
    /// sample has, ascending, how many have it; for each queue the sum of its customers over the samples that are
    /// met, and, where one is met, the least and the greatest number of them; and for each reward likewise the sum,
    /// the least and the greatest of its values.
    ///
    /// # Errors
    ///
    /// [`OutOfMemory`] if an allocation fails.
    pub fn report(&self, alloc: Global, net: &Net) -> Result<Report, OutOfMemory>
        requires { (outcomes : List Outcome) × StandsFor self.now net.now outcomes }
        ensures { (outcomes : List Outcome) → StandsFor self.now net.now outcomes → IfOk result (λ report. report ≡ contents_of net.now outcomes) }
    {
        let mut figures = Vec::new(alloc);
        push_queues(&mut figures, net, self.met, self.queues.as_slice())?;
        push_rewards(&mut figures, net, self.met, self.rewards.as_slice())?;
        Ok(Report {
            samples: self.samples as u64,
            met: self.met as u64,
            horizons: horizons_of(alloc, &self.horizons)?,
            figures,
        })
    }

    /// Returns the text of the report of the samples.
    ///
    /// # Errors
    ///
    /// [`OutOfMemory`] if an allocation fails.
    pub fn text(&self, alloc: Global, net: &Net) -> Result<Vec<u8>, OutOfMemory>
        requires { (outcomes : List Outcome) × StandsFor self.now net.now outcomes }
        ensures { (outcomes : List Outcome) → StandsFor self.now net.now outcomes → IfOk result (λ text. text.items ≡ report_text net.now outcomes) }
    {
        let report = self.report(alloc, net)?;
        report.text(alloc)
    }
}
