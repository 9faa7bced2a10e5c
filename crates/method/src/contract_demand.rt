// The method by contract demand: what a tenant could use of it, for a meter that was altered.
ghost use Rattle.std.specs.Prelude.{◌≡◌, ◌≤◌};
ghost use Rattle.rules.specs.Questions.{first_no, AskedBy};
ghost use Rattle.method.specs.Making.{number_of, contract_asked};
ghost use Rattle.method.specs.Made.{made_as, contract_made};
ghost use Rattle.method.specs.Uses.{named_by, named_back};
ghost use Rattle.method.specs.Meaning.{altering, daily};
ghost use Rattle.method.specs.Meant.{contract_of};

use crate::fault::MethodFault;
use crate::finding::{Span, Use};
use crate::limits::{Contract, Percent, part};
use crate::method::Method;
use crate::uses::Uses;
use figures::reported::Kva;
use figures::row::Recorded;
use figures::units::{Demand, Register};

/// The demand, how much of it is utilized, the power and the load factor, and the peak's share.
#[derive(Clone, Copy)]
pub struct ContractDemand {
    pub contract: Contract,
    pub utilization: Percent,
    pub power: Percent,
    pub load: Percent,
    pub peak: Percent,
}

impl ContractDemand {
    pub fn new(
        kva: Kva,
        utilization: u64,
        power: u64,
        load: u64,
        peak: u64,
    ) -> Result<ContractDemand, MethodFault>
        ensures asked { AskedBy number_of (first_no (contract_asked kva.0 utilization power load peak)) (λ m. (m.contract.figure.0 ≡ kva.0) × (m.utilization.figure ≡ utilization) × (m.power.figure ≡ power) × (m.load.figure ≡ load) × (m.peak.figure ≡ peak)) result }
        ensures made { made_as contract_of result ≡ contract_made kva.0 utilization power load peak }
    {
        let contract = Contract::new(kva)?;
        let utilization = Percent::new(utilization)?;
        let power = Percent::new(power)?;
        let load = Percent::new(load)?;
        let peak = Percent::new(peak)?;
        Ok(ContractDemand {
            contract,
            utilization,
            power,
            load,
            peak,
        })
    }

    /// The units of a day, in millionths of a kWh.
    fn a_day(&self) -> u64
        ensures { (result ≡ daily self.now.contract.figure.0 self.now.utilization.figure self.now.power.figure self.now.load.figure) × (result ≤ 24000000000) }
    {
        let full = self.contract.figure.0 * 24 * self.utilization.figure;
        full * self.power.figure * self.load.figure
    }
}

impl Method for ContractDemand {
    ghost CAUSES = { named_by altering };

    const CAUSES: Uses = Uses {
        estimates: false,
        absent: false,
        under: false,
        over: false,
        stopped: false,
        altered: true,
    };

    ghost meaning = { contract_of };

    ghost tied = { λ _. named_back altering };

    fn upper(&self, k: Register) -> u64 {
        self.a_day() * part(self.peak, k).figure
    }

    fn lower(&self) -> u64 {
        100_000_000
    }

    fn weight(&self, _: Register, row: Recorded) -> u64 {
        row.days.count
    }

    fn demand(&self, _: Recorded) -> Demand {
        Demand {
            figure: Kva((self.contract.figure.0 * self.utilization.figure).div_ceil(100)),
        }
    }

    fn fits(&self, _: Use, _: Span) -> bool {
        true
    }
}
