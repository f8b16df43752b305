//! Questions, each answered by the file that has its name.
ghost use Rattle.reg_calls.specs.Internal.Stores.{at, KnowsKeys};
ghost use Rattle.reg_callbacks.specs.Asking.{asks};
ghost use Rattle.reg_callbacks.specs.Lists.{answers_of};
ghost use Rattle.reg_calls.specs.Views.{IsRead};
ghost use Rattle.reg_calls.specs.Rooms.{due, TellsValue, TellsKey};
ghost use Rattle.reg_calls.specs.Internal.RoomQuestions.{AsksValue, AsksKey};
ghost use Rattle.reg_calls.specs.declared.store.JournalEnd.{JournalEnd};

use crate::asking::Asking;
use crate::enum_key::KeyTold;
use crate::query_value::ValueTold;
use crate::store::Store;
use crate::{enum_key, enum_value, get_security, query_info, query_value};
use reg_callbacks::{Callback, Callbacks, Seen};
use reg_model::{AnswerBody, Query};
use std::alloc::Global;

impl Store {
    /// Answers a question of a session: the refusal, what is told, or 8 where memory was refused for a name or bytes.
    pub fn answer<C: Callback>(
        &self,
        callbacks: &Callbacks<C>,
        alloc: Global,
        session: u8,
        query: &Query,
    ) -> AnswerBody
        requires { KnowsKeys self.now }
        ensures { (end : JournalEnd) → IsRead (asks (answers_of C.answers callbacks.now)) (at end self.now) session query.now result }
    {
        let asking = Asking {
            callbacks,
            session,
            moment: 0,
            seen: Seen::Query(query),
        };
        match query {
            Query::QueryValue { handle, name, room } => {
                query_value::answer(
                    self,
                    &asking,
                    alloc,
                    session,
                    *handle,
                    name.as_slice(),
                    *room,
                )
            }
            Query::EnumKey {
                handle,
                index,
                room,
            } => enum_key::answer(self, &asking, alloc, session, *handle, *index, *room),
            Query::EnumValue {
                handle,
                index,
                name_room,
                room,
            } => enum_value::answer(
                self, &asking, alloc, session, *handle, *index, *name_room, *room,
            ),
            Query::QueryInfo { handle } => query_info::answer(self, &asking, session, *handle),
            Query::GetSecurity { handle, room } => {
                get_security::answer(self, &asking, alloc, session, *handle, *room)
            }
        }
    }

    /// Answers a QueryValue, as `answer` does, with the value's data written over the front of a room. It takes no memory.
    pub fn answer_value<C: Callback>(
        &self,
        callbacks: &Callbacks<C>,
        session: u8,
        query: &Query,
        room: &mut [u8],
    ) -> ValueTold
        requires keys { KnowsKeys self.now }
        requires value { AsksValue query.now room.old }
        ensures { (end : JournalEnd) → TellsValue (due (asks (answers_of C.answers callbacks.now)) (at end self.now) session query.now) result room.old room.new }
    {
        let asking = Asking {
            callbacks,
            session,
            moment: 0,
            seen: Seen::Query(query),
        };
        match query {
            Query::QueryValue {
                handle,
                name,
                room: _,
            } => query_value::answer_into(self, &asking, session, *handle, name.as_slice(), room),
            _ => unreachable!(),
        }
    }

    /// Answers an EnumKey, as `answer` does, with the subkey's name written over the front of a room. It takes no memory.
    pub fn answer_subkey<C: Callback>(
        &self,
        callbacks: &Callbacks<C>,
        session: u8,
        query: &Query,
        room: &mut [u8],
    ) -> KeyTold
        requires keys { KnowsKeys self.now }
        requires subkey { AsksKey query.now room.old }
        ensures { (end : JournalEnd) → TellsKey (due (asks (answers_of C.answers callbacks.now)) (at end self.now) session query.now) result room.old room.new }
    {
        let asking = Asking {
            callbacks,
            session,
            moment: 0,
            seen: Seen::Query(query),
        };
        match query {
            Query::EnumKey {
                handle,
                index,
                room: _,
            } => enum_key::answer_into(self, &asking, session, *handle, *index, room),
            _ => unreachable!(),
        }
    }
}
