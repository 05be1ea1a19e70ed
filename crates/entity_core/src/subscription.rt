//! Subscriptions of USSs to changes.
ghost use Rattle.std.specs.Prelude.{◌≡◌, ◌<◌, IfOk};
ghost use Rattle.entity_core.specs.Airspace.{notified_again};
ghost use Rattle.entity_core.specs.Serial.{max_serial};

use crate::base_url::BaseUrl;
use crate::entity_id::EntityId;
use crate::interest::Interest;
use crate::notification_index::NotificationIndex;
use crate::ovn::Ovn;
use crate::serial::Serial;
use crate::uss_id::UssId;
use grid_core::volume::Volume;
use std::alloc::AllocError;

/// A stored subscription.
///
/// Its ids are separate from those of entities (all of it is this project's profile).
#[derive(Debug, Drop)]
pub struct Sub {
    pub id: EntityId,
    /// The USS that created it. Only this USS may read and change it.
    pub manager: UssId,
    /// The OVN of its serial.
    pub version: Ovn,
    /// The serial of its last put.
    pub serial: Serial,
    pub index: NotificationIndex,
    pub volume: Volume,
    /// The base URL at which its USS is notified.
    pub url: BaseUrl,
    pub interest: Interest,
}

impl Sub {
    /// Returns a copy of the subscription.
    ///
    /// Returns `AllocError` if memory runs out.
    pub fn clone(&self) -> Result<Sub, AllocError>
        ensures { IfOk result (λ sub. sub ≡ self.now) }
    {
        Ok(Sub {
            id: self.id,
            manager: self.manager.clone()?,
            version: self.version.clone()?,
            serial: self.serial,
            index: self.index,
            volume: self.volume.clone()?,
            url: self.url.clone()?,
            interest: self.interest,
        })
    }

    /// Increments the notification index, up to its maximum.
    pub fn notify(&mut self)
        ensures { self.old.index < max_serial → self.new ≡ notified_again self.old }
    {
        self.index = self.index.next();
    }
}
