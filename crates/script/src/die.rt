// The die that texts are run on: three 8-bit instruments of depth 1 that invert what they hold, which is zeros at first.
ghost use Rattle.std.specs.Prelude.{◌≡◌, IfErr};
ghost use Rattle.simulator.specs.declared.site.NetworkFault.TheVariants.{Memory};

use command::{Command, next_command};
use host::HostFault;
use refusal::Refusal;
use simulator::{NetworkFault, Offer, Setting, Simulator};
use std::alloc::Global;
use table::{Record, attach};
use translator::{control, data};

#[derive(Drop)]
pub(crate) struct Die {
    records: [Record; INSTRUMENTS],
    network: Simulator,
    reply: [u8; MOST_REPLY],
}

const INSTRUMENTS: usize = 3;

const INVERTS: Setting = Setting {
    offer: Offer::Inverts,
    fault: None,
};

// Each of the instruments takes at most two bytes of a reply, and the trailer two.
const MOST_REPLY: usize = 8;

impl Die {
    // Table and network fit together, so only memory can be wanting.
    pub(crate) fn new(heap: Global) -> Result<Die, NetworkFault>
        ensures { IfErr result (λ e. e ≡ Memory) }
    {
        let mut records = [Record::instrument(1, 8); INSTRUMENTS];
        let settings = [INVERTS; INSTRUMENTS];
        let held = [false; 8 * INSTRUMENTS];
        let network = Simulator::new(heap, &records, &settings, &held)?;
        attach(&mut records)?;
        Ok(Die {
            records,
            network,
            reply: [0; MOST_REPLY],
        })
    }

    pub(crate) fn records(&self) -> &[Record] {
        &self.records
    }

    // Has the translator carry out one command, which is data and is taken apart here alone; a data command answers how long its
    // reply is.
    fn carry_out(&mut self, command: Command) -> Result<Option<usize>, Refusal> {
        match command {
            Command::Control { number, write } => {
                control(&mut self.records, number, write)?;
                Ok(None)
            }
            // They have no call yet.
            Command::Test | Command::Localise => Err(Refusal::NoInstrument),
            Command::Data(sent) => {
                let applied = data(&mut self.records, &mut self.network, sent, &mut self.reply)?;
                Ok(Some(applied.reply))
            }
        }
    }

    // Has the translator carry out all commands; answers the reply of the last.
    #[tactic(auto, using(crate::proofs::Commands::next_shorter))]
    pub(crate) fn reply_to(&mut self, heap: Global, commands: &[u8]) -> Result<Vec<u8>, HostFault> {
        let mut rest = commands;
        let mut length = None;
        while let Some(next) = next_command(rest)? {
            rest = next.rest;
            length = self.carry_out(next.command)?;
        }
        Ok(
            self.reply
                .iter()
                .take(length.unwrap_or(0))
                .copied()
                .collect(heap)?,
        )
    }
}
