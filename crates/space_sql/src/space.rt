//! A space over tables of SQLite.
ghost use Rattle.std.specs.Prelude.{◌≡◌, false};
ghost use Rattle.sqlite.specs.Held.{state};
ghost use Rattle.space_sql.specs.Holding.{holds_in, is_whole_in, IsSound};

use crate::answers::answer_of;
use crate::reading::read_all;
use entity_core::availability::Availability;
use entity_core::entity::Entity;
use entity_core::entity_id::EntityId;
use entity_core::nature::Kind;
use entity_core::ovn::Ovn;
use entity_core::subscription::Sub;
use entity_core::uss_id::UssId;
use grid_core::volume::Area;
use space_core::met::Met;
use space_core::space::{Change, Space, SpaceFault};
use space_sql_lookup::availability::read_availability;
use space_sql_lookup::dependents::read_dependents;
use space_sql_lookup::entity::read_entity;
use space_sql_lookup::serial::read_serial;
use space_sql_lookup::subscription::read_subscription;
use space_sql_search::meeting::read_meeting;
use space_sql_search::subscriptions::{find_subscribers, find_subscriptions_of};
use space_sql_write::change::commit_change;
use sqlite::{Alter, Connection};
use std::alloc::Global;
use std::marker::Model;

/// An airspace in the tables of a store of SQLite.
///
/// A space holds the airspace that a crash at this time may leave in its tables: exactly those of
/// format 2, which represent the airspace. Contracts hold while the disk returns what was written.
/// A store in memory has no disk. After `Broken`, every call returns `Broken`, and the tables are
/// not touched.
#[derive(Drop)]
pub struct SqlSpace<S: Alter> {
    pub(crate) conn: Connection<S>,
    pub(crate) refusals: u64,
    pub(crate) broken: bool,
    pub(crate) upgraded: bool,
    pub(crate) alloc: Global,
}

impl<S: Alter> Model for SqlSpace<S> {
    ghost use Rattle.sqlite.specs.Held.{state};
    ghost use Rattle.space_sql.specs.Holding.{IsKeeping, SqlSpaceModel, sql_space_code};

    ghost Value = { SqlSpaceModel S };

    ghost coded = { sql_space_code S.code };

    ghost view = { λ s. record {
      conn = s.conn;
      refusals = s.refusals;
      broken = s.broken;
      upgraded = s.upgraded;
    } };

    ghost invariant = { λ s. IsKeeping (state S.Store s.conn) s.broken };
}

impl<S: Alter> Space for SqlSpace<S> {
    ghost use Rattle.std.specs.Prelude.{◌≡◌};
    ghost use Rattle.sqlite.specs.Held.{state};
    ghost use Rattle.space_core.specs.Space.{nothing_fixed};
    ghost use Rattle.space_sql.specs.Holding.{holds_in, is_whole_in, IsSound};
    ghost use Rattle.space_sql.specs.Laws.{all_kept, kept_is_proper, one_kept, some_kept};

    ghost holds = { λ s a. holds_in (state S.Store s.conn) a };

    ghost is_sound = { λ s. IsSound (state S.Store s.conn) s.broken };

    ghost is_whole = { λ s. is_whole_in (state S.Store s.conn) };

    ghost refusals = { λ s. s.refusals };

    ghost is_broken = { λ s. s.broken };

    ghost fixed = { λ _. nothing_fixed };

    ghost content_unique = { λ s a b sound off h k.
        one_kept _ a b (λ db may. S.Store.settled _ db (sound.live off) may) h k };

    ghost content_whole = { λ s a sound off h.
        all_kept _ a (λ db may. S.Store.settled _ db (sound.live off) may) h };

    ghost content_exists = { λ s sound whole. some_kept (S.Store.survives _ sound.clean) whole };

    ghost content_valid = { λ s a sound h. kept_is_proper a h };

    fn entity(&mut self, kind: Kind, id: EntityId) -> Result<Option<Entity>, SpaceFault> {
        if self.broken {
            return Err(SpaceFault::Broken);
        }
        let read = read_entity(self.alloc, &mut self.conn, kind, id);
        answer_of(&mut self.conn, &mut self.refusals, &mut self.broken, read)
    }

    fn meeting(
        &mut self,
        kind: Kind,
        areas: &[Area],
        except: Option<EntityId>,
    ) -> Result<Vec<Met>, SpaceFault> {
        if self.broken {
            return Err(SpaceFault::Broken);
        }
        let read = read_meeting(self.alloc, &mut self.conn, kind, areas, except);
        answer_of(&mut self.conn, &mut self.refusals, &mut self.broken, read)
    }

    fn all(&mut self, kind: Kind) -> Result<Vec<Entity>, SpaceFault> {
        if self.broken {
            return Err(SpaceFault::Broken);
        }
        let read = read_all(self.alloc, &mut self.conn, kind);
        answer_of(&mut self.conn, &mut self.refusals, &mut self.broken, read)
    }

    fn availability(&mut self, uss: &UssId) -> Result<Option<(Availability, Ovn)>, SpaceFault> {
        if self.broken {
            return Err(SpaceFault::Broken);
        }
        let read = read_availability(self.alloc, &mut self.conn, uss);
        answer_of(&mut self.conn, &mut self.refusals, &mut self.broken, read)
    }

    fn subscription(&mut self, id: EntityId) -> Result<Option<Sub>, SpaceFault> {
        if self.broken {
            return Err(SpaceFault::Broken);
        }
        let read = read_subscription(self.alloc, &mut self.conn, id);
        answer_of(&mut self.conn, &mut self.refusals, &mut self.broken, read)
    }

    fn subscriptions_of(&mut self, uss: &UssId, area: &Area) -> Result<Vec<Sub>, SpaceFault> {
        if self.broken {
            return Err(SpaceFault::Broken);
        }
        let read = find_subscriptions_of(self.alloc, &mut self.conn, uss, area);
        answer_of(&mut self.conn, &mut self.refusals, &mut self.broken, read)
    }

    fn subscribers(&mut self, kind: Kind, areas: &[Area]) -> Result<Vec<Sub>, SpaceFault> {
        if self.broken {
            return Err(SpaceFault::Broken);
        }
        let read = find_subscribers(self.alloc, &mut self.conn, kind, areas);
        answer_of(&mut self.conn, &mut self.refusals, &mut self.broken, read)
    }

    fn dependents(&mut self, id: EntityId) -> Result<Vec<EntityId>, SpaceFault> {
        if self.broken {
            return Err(SpaceFault::Broken);
        }
        let read = read_dependents(self.alloc, &mut self.conn, id);
        answer_of(&mut self.conn, &mut self.refusals, &mut self.broken, read)
    }

    fn serial(&mut self) -> Result<u64, SpaceFault> {
        if self.broken {
            return Err(SpaceFault::Broken);
        }
        let read = read_serial(&mut self.conn);
        answer_of(&mut self.conn, &mut self.refusals, &mut self.broken, read)
    }

    fn apply(&mut self, change: Change, notify: &[EntityId]) -> Result<(), SpaceFault> {
        if self.broken {
            return Err(SpaceFault::Broken);
        }
        let made = commit_change(self.alloc, &mut self.conn, &change, notify);
        answer_of(&mut self.conn, &mut self.refusals, &mut self.broken, made)
    }
}
