// Replies.
ghost use Rattle.std.specs.Prelude.{◌≡◌, []};
ghost use Rattle.flash_dev.specs.declared.hurt.Hurt.TheVariants.{Whole};
ghost use Rattle.command_table.specs.Leaves.{end_status};

use ec_model::Hurt;
use ec_packet::Packet;
use ec_types::status;

/// A reply, and what a flash call did while it was made.
#[derive(Drop)]
pub struct Reply {
    pub status: u16,
    pub body: Packet,
    pub hurt: Hurt,
}

impl Reply {
    /// Success, with no body.
    pub fn new() -> Reply
        ensures status { result.status ≡ 0 }
        ensures body { result.body ≡ [] }
        ensures hurt { result.hurt ≡ Whole }
    {
        Reply {
            status: status::SUCCESS,
            body: Packet::new(),
            hurt: Hurt::Whole,
        }
    }

    /// A status alone, of a refusal or of work that goes on, where no flash call failed.
    pub fn end_with(&mut self, status: u16)
        ensures status { self.new.status ≡ status }
        ensures body { self.new.body ≡ [] }
        ensures hurt { self.new.hurt ≡ Whole }
    {
        self.status = status;
        self.body.clear();
        self.hurt = Hurt::Whole;
    }

    // Success with no body, or an error where a flash call failed.
    pub(crate) fn end(&mut self, hurt: Hurt)
        ensures status { self.new.status ≡ end_status hurt }
        ensures body { self.new.body ≡ [] }
        ensures hurt { self.new.hurt ≡ hurt }
    {
        self.end_with(match hurt {
            Hurt::Whole => status::SUCCESS,
            _ => status::ERROR,
        });
        self.hurt = hurt;
    }

    // Success, with no body yet.
    pub(crate) fn succeed(&mut self)
        ensures status { self.new.status ≡ 0 }
        ensures body { self.new.body ≡ [] }
        ensures hurt { self.new.hurt ≡ Whole }
    {
        self.end(Hurt::Whole);
    }
}
