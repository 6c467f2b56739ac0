//! Laws over the definitions, each the contract of a function that does nothing.

ghost use Rattle.std.specs.Prelude.{◌≡◌, ◌≢◌, ◌≤◌, ◌<◌, ◌^◌, ◌↔◌, ℕ, List, [], ◌∷◌, ◌++◌, length, take, map};
ghost use Rattle.std.specs.Prelude.{Bool, true, false, Option, Some, None, ◌⊎◌};
ghost use Rattle.std.specs.List.{AllByRecursion};
ghost use Rattle.ws_wire.specs.declared.role.Role.{Role};
ghost use Rattle.ws_wire.specs.Header.{AreBytes, IsMaskingKey};
ghost use Rattle.ws_wire.specs.Frame.{Frame, KeyedFrame, FitsTheLayout, stream_bytes};
ghost use Rattle.ws_text.specs.Close.{CloseValue};
ghost use Rattle.ws_session.specs.declared.message.Message.{Message};
ghost use Rattle.ws_session.specs.declared.reason.Reason.{Reason};
ghost use Rattle.ws_session.specs.declared.event.Event.{Event};
ghost use Rattle.ws_session.specs.declared.event.Event.TheVariants as event;
ghost use Rattle.ws_session.specs.declared.status.Status.{Status};
ghost use Rattle.ws_session.specs.declared.status.Status.TheVariants.{Lost};
ghost use Rattle.ws_session.specs.Limits.{LimitsValue};
ghost use Rattle.ws_session.specs.Validity.{AreValidFrames, NothingAfterClose};
ghost use Rattle.ws_session.specs.Faults.{frames_of, KeysFit, IsFirstFault, HasNoFault};
ghost use Rattle.ws_session.specs.Doomed.{IsDoomed, EndsDoomed};
ghost use Rattle.ws_session.specs.Messages.{messages_of, open_message_of};
ghost use Rattle.ws_session.specs.Events.{HasEvents, IsFaultOf, events_after, messages_in};
ghost use Rattle.ws_session.specs.Replies.{has_close, echo_replies_of, replies_by, replies_of, key_for, under_key};
ghost use Rattle.ws_session.specs.Reach.{fitting, first_passing, IsWithin, frames_within, size_fault, events_within};
ghost use Rattle.ws_session.specs.Sends.{Send, frame_of, most_limits, HasTextReason, MaySend};
ghost use Rattle.ws_session.specs.Exchange.{SessionValue, HasExchanged, is_over, last_event};

/// A stream has one list of events.
pub fn one_list_of_events()
    ensures { (role : Role) (limits : LimitsValue) (bytes : List ℕ) (events others : List Event) →
        HasEvents role limits bytes events → HasEvents role limits bytes others → events ≡ others }
{}

/// Every stream has a first fault or none, and events.
pub fn every_stream_has_events()
    ensures fault { (role : Role) (limits : LimitsValue) (bytes : List ℕ) → AreBytes bytes →
        (fault : Option (ℕ × Reason)) × IsFaultOf role limits bytes fault }
    ensures events { (role : Role) (limits : LimitsValue) (bytes : List ℕ) → AreBytes bytes →
        (events : List Event) × HasEvents role limits bytes events }
{}

/// More bytes leave the first fault.
pub fn first_fault_stays()
    ensures { (role : Role) (limits : LimitsValue) (bytes more : List ℕ) (place : ℕ) (reason : Reason) →
        IsFirstFault role limits bytes place reason → IsFirstFault role limits (bytes ++ more) place reason }
{}

/// More bytes leave the events before them.
pub fn events_go_on()
    ensures { (role : Role) (limits : LimitsValue) (bytes more : List ℕ) (events all : List Event) →
        HasEvents role limits bytes events → HasEvents role limits (bytes ++ more) all → (later : List Event)
        × (all ≡ events ++ later) }
{}

/// More bytes inside the frame leave it doomed.
pub fn doomed_stays()
    ensures { (role : Role) (limits : LimitsValue) (opened : Option Message) (bytes more : List ℕ) →
        IsDoomed role limits opened bytes → IsDoomed role limits opened (bytes ++ more) }
{}

/// A doomed frame comes to a fault, whatever bytes follow: as long as there is none, they are inside that same frame,
/// which isn't whole, and no event but the fault comes of them.
pub fn doomed_frames_come_to_a_fault()
    ensures stays { (role : Role) (limits : LimitsValue) (bytes more : List ℕ) (frames : List KeyedFrame)
        (rest : List ℕ) → EndsDoomed role limits bytes frames rest → HasNoFault role limits (bytes ++ more) →
        EndsDoomed role limits (bytes ++ more) frames (rest ++ more) }
    ensures events { (role : Role) (limits : LimitsValue) (bytes more : List ℕ) (frames : List KeyedFrame)
        (rest : List ℕ) → EndsDoomed role limits bytes frames rest → (events all : List Event) →
        HasEvents role limits bytes events → HasEvents role limits (bytes ++ more) all →
        (all ≡ events) ⊎ ((reason : Reason) × (all ≡ events ++ event.Failed reason ∷ [])) }
{}

/// A session goes on while what it took ends doomed, and its stream has not ended.
pub fn doomed_streams_go_on()
    ensures { (session : SessionValue) (sent : List Frame) (bytes : List ℕ) (frames : List KeyedFrame)
        (rest : List ℕ) → HasExchanged session sent bytes false →
        EndsDoomed session.role session.limits bytes frames rest → is_over session.status ≡ false }
{}

/// A close or a fault is the last event of a stream.
pub fn the_end_comes_last()
    ensures close { (role : Role) (limits : LimitsValue) (bytes : List ℕ) (events later : List Event)
        (close : Option CloseValue) → HasEvents role limits bytes (events ++ event.Close close ∷ later) → later ≡ [] }
    ensures fault { (role : Role) (limits : LimitsValue) (bytes : List ℕ) (events later : List Event)
        (reason : Reason) → HasEvents role limits bytes (events ++ event.Failed reason ∷ later) → later ≡ [] }
{}

/// Bytes after the peer's close or after a fault say nothing: a session that is over by these, and not lost, agrees
/// with them as it is, whether its stream has ended or not.
pub fn bytes_after_the_end()
    ensures { (session : SessionValue) (sent : List Frame) (bytes more : List ℕ) (ended : Bool) →
        HasExchanged session sent bytes ended → is_over session.status ≡ true → session.status ≢ Lost →
        AreBytes more → HasExchanged session sent (bytes ++ more) ended }
{}

/// A session whose stream has ended is over.
pub fn ended_streams_are_over()
    ensures { (session : SessionValue) (sent : List Frame) (bytes : List ℕ) →
        HasExchanged session sent bytes true → is_over session.status ≡ true }
{}

/// Replies to more events are those to the first, and then, with these sent, those to the others: whatever is replied
/// to an event, by a session as `reply_to` says or by an echo.
pub fn replies_go_on()
    ensures { (reply : Event → List Frame) (sent : List Frame) (events later : List Event) →
        replies_by reply sent (events ++ later) ≡ replies_by reply sent events
        ++ replies_by reply (sent ++ replies_by reply sent events) later }
{}

/// The messages among the events of some frames are those that the frames finish.
pub fn messages_are_told()
    ensures { (frames : List Frame) → messages_in (events_after [] frames) ≡ messages_of frames }
{}

/// The frames within the first bytes are the longest front of all that takes no more bytes and in which none passes a
/// limit.
pub fn longest_front_within()
    ensures is { (limits : LimitsValue) (n : ℕ) (xs : List KeyedFrame) →
        IsWithin limits n xs (frames_within limits n xs) }
    ensures longest { (limits : LimitsValue) (n : ℕ) (xs front : List KeyedFrame) → IsWithin limits n xs front →
        length front ≤ length (frames_within limits n xs) }
{}

/// Frames that are sent later leave what the first bytes hold.
pub fn appended_frames_are_not_within()
    ensures frames { (limits : LimitsValue) (n : ℕ) (xs more : List KeyedFrame) → n ≤ length (stream_bytes xs) →
        frames_within limits n (xs ++ more) ≡ frames_within limits n xs }
    ensures size { (limits : LimitsValue) (n : ℕ) (xs more : List KeyedFrame) → n ≤ length (stream_bytes xs) →
        size_fault limits n (xs ++ more) ≡ size_fault limits n xs }
{}

/// What a valid sender can do to a receiver, under whatever limits each has: of the first bytes the receiver tells the
/// frames in them that fit its limits, and then that a size is not taken, of a message or else of a frame. So no other
/// fault comes of valid frames.
pub fn valid_frames_are_told()
    ensures { (role : Role) (limits most : LimitsValue) (n : ℕ) (xs : List KeyedFrame) →
        AllByRecursion FitsTheLayout xs → KeysFit role xs → AreValidFrames most (frames_of xs) →
        HasEvents role limits (take n (stream_bytes xs)) (events_within limits n xs) }
{}

/// Of frames that keep to limits none passes greater ones: all of them fit.
pub fn greater_limits_pass_none()
    ensures { (limits most : LimitsValue) (xs : List KeyedFrame) → AreValidFrames most (frames_of xs) →
        most.max_message ≤ limits.max_message → most.max_frame ≤ limits.max_frame →
        (fitting limits xs ≡ xs) × (first_passing limits xs ≡ None) }
{}

/// Once a size was not taken, or a close has come, more bytes hold nothing more.
pub fn more_bytes_after_the_last()
    ensures size { (limits : LimitsValue) (n m : ℕ) (xs : List KeyedFrame) (reason : Reason) → n ≤ m →
        size_fault limits n xs ≡ Some reason →
        (frames_within limits m xs ≡ frames_within limits n xs) × (size_fault limits m xs ≡ Some reason) }

    // A close is the last of valid frames, so all of them have come.
    ensures close { (limits most : LimitsValue) (n m : ℕ) (xs : List KeyedFrame) → n ≤ m →
        AreValidFrames most (frames_of xs) → has_close (frames_of (frames_within limits n xs)) ≡ true →
        (frames_within limits m xs ≡ xs) × (size_fault limits m xs ≡ None) }
{}

/// Frames under fitting keys, of which none follows a close, have a fault exactly where they aren't valid.
pub fn faults_are_of_invalid_frames()
    ensures valid { (role : Role) (limits : LimitsValue) (xs : List KeyedFrame) → AllByRecursion FitsTheLayout xs →
        KeysFit role xs →
        AreValidFrames limits (frames_of xs) → HasNoFault role limits (stream_bytes xs) }
    ensures invalid { (role : Role) (limits : LimitsValue) (xs : List KeyedFrame) → AllByRecursion FitsTheLayout xs →
        KeysFit role xs → NothingAfterClose (frames_of xs) →
        ¬ (AreValidFrames limits (frames_of xs)) → ¬ (HasNoFault role limits (stream_bytes xs)) }

    // So a session fails exactly then.
    ensures failed { (role : Role) (limits : LimitsValue) (xs : List KeyedFrame) (events : List Event) →
        AllByRecursion FitsTheLayout xs → KeysFit role xs → NothingAfterClose (frames_of xs) →
        HasEvents role limits (stream_bytes xs) events →
        (¬ (AreValidFrames limits (frames_of xs))) ↔
        ((reason : Reason) × (last_event events ≡ Some (event.Failed reason))) }
{}

/// What may be sent after valid frames leaves them valid.
pub fn sends_stay_valid()
    ensures { (sent : List Frame) (status : Status) (send : Send) → AreValidFrames most_limits sent →
        HasTextReason send → MaySend sent status send →
        AreValidFrames most_limits (sent ++ frame_of send ∷ []) }
{}

/// What is owed for what comes, after whatever came before, leaves valid frames valid.
pub fn replies_stay_valid()
    ensures { (role : Role) (limits most : LimitsValue) (bytes : List ℕ) (events later : List Event)
        (sent : List Frame) → HasEvents role limits bytes (events ++ later) → AreValidFrames most sent →
        AreValidFrames most (sent ++ replies_of sent later) }
{}

/// What is owed for what comes can be sent, under whatever key an endpoint of any role is handed.
pub fn replies_can_be_sent()
    ensures { (role own : Role) (limits : LimitsValue) (bytes key : List ℕ) (events later : List Event)
        (sent : List Frame) → HasEvents role limits bytes (events ++ later) → IsMaskingKey (key_for own key) →
        AllByRecursion FitsTheLayout (map (under_key own key) (replies_of sent later)) }
{}

/// What an echo owes for what comes, after whatever came before, leaves valid frames valid that leave no message open,
/// under limits by which a frame may hold any message that it takes. It leaves none open either.
pub fn echo_replies_stay_valid()
    ensures valid { (limits most : LimitsValue) → limits.max_message ≤ most.max_message →
        limits.max_message ≤ most.max_frame → (role : Role) (bytes : List ℕ) (events later : List Event)
        (sent : List Frame) → HasEvents role limits bytes (events ++ later) → AreValidFrames most sent →
        open_message_of sent ≡ None → AreValidFrames most (sent ++ echo_replies_of sent later) }
    ensures leaves_none { (sent : List Frame) (events : List Event) → open_message_of sent ≡ None →
        open_message_of (sent ++ echo_replies_of sent events) ≡ None }
{}

/// What an echo owes for what comes can be sent, where the messages that it takes have less than 2^63 bytes.
pub fn echo_replies_can_be_sent()
    ensures { (role own : Role) (limits : LimitsValue) (bytes key : List ℕ) (events later : List Event)
        (sent : List Frame) → HasEvents role limits bytes (events ++ later) → limits.max_message < 2 ^ 63 →
        IsMaskingKey (key_for own key) →
        AllByRecursion FitsTheLayout (map (under_key own key) (echo_replies_of sent later)) }
{}

/// The keys of what one role sends fit the other.
pub fn keys_fit_the_other_role()
    ensures { (own other : Role) (key : List ℕ) (frames : List Frame) → own ≢ other →
        KeysFit other (map (under_key own key) frames) }
{}
