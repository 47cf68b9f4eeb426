// Writing a frame: what is tested first, and a function for each message's payload. Places are those of document 01's payload octets.
// A group count stands beside its values, and in no `Vec`: no heap. The table names both (`Table.atten_profile_ind`).
ghost use Rattle.std.specs.Prelude.{◌≡◌, List, [], ℕ, ◌≤◌, ◌&&◌, length};
ghost use Rattle.std.proofs.lemmas.List.Edits.{sets};
ghost use Rattle.messages.specs.Layout.{encode};
ghost use Rattle.messages.specs.Table.{slac_parm_req, slac_parm_cnf, start_atten_char_ind, atten_char_ind, atten_char_rsp, mnbc_sound_ind, validate_req, validate_cnf, slac_match_cnf, atten_profile_ind, group_count, is_unicast, match_fields, payload};
ghost use Rattle.messages.specs.Writing.{payload_octets, frame};
ghost use Rattle.messages.specs.Reading.{check, yes};
ghost use Rattle.messages.specs.Answers.{besides, checked_of};
ghost use Rattle.messages.specs.Private.{means, Heads, Judges, id_right, ids_right, groups_right, PayloadRoom, FrameRoom};

use crate::editions::{any_id, forwarding_to, is_attempt, is_count, resp_type};
use crate::group_values::put_groups;
use crate::heads::{HEAD, put_head};
use crate::id_octets::{is_free, put_id};
use crate::kinds::{Form, Kind};
use crate::{
    BROADCAST, Edition, GROUPS, GroupValues, IdOctets, Ids, Message, NID_LIMIT, Nid, Nmk,
    RESULT_LIMIT, Random, Refusal, is_receiver, is_unicast, timer_limit,
};
use octets::{is_zero, put_low_number, put_number};

// A frame's form, destination and source.
#[derive(Clone, Copy)]
pub(crate) struct Head {
    pub form: Form,
    pub dst: u64,
    pub src: u64,
}

// A message to write in an edition, with its group values and identifiers.
#[derive(Clone, Copy)]
pub(crate) struct Outgoing {
    pub edition: Edition,
    pub message: Message,
    pub groups: GroupValues,
    pub ids: Ids,
}

impl Head {
    // The head of a kind of message with so many group values, 0 where it has none.
    fn of(kind: Kind, count: usize, dst: u64, src: u64) -> Head
        ensures { result ≡ record { form = record { kind = kind; count = count }; dst = dst; src = src } }
    {
        Head {
            form: Form { kind, count },
            dst,
            src,
        }
    }
}

// The head, unless its source or another address (5) or a value (6) is wrong.
fn judge(head: Head, addressed: bool, limited: bool) -> Result<Head, Refusal>
    ensures { checked_of result ≡ check (is_unicast head.src && addressed) 5 (check limited 6 (yes head)) }
{
    if !(is_unicast(head.src) & addressed) {
        return Err(Refusal::BadAddress);
    }
    if !limited {
        return Err(Refusal::BadOctet);
    }
    Ok(head)
}

// Whether an identifier is right in an edition.
fn id_right(edition: Edition, id: IdOctets) -> bool
    ensures { result ≡ id_right edition id }
{
    is_free(&id, 0, any_id(edition))
}

// Whether both are.
fn ids_right(edition: Edition, ids: Ids) -> bool
    ensures { (g : List ℕ) → result ≡ ids_right edition (besides g ids) }
{
    id_right(edition, ids.first) & id_right(edition, ids.second)
}

// Whether a group count is right in an edition, and the values past it are zero.
#[tactic(auto, using(crate::proofs::TableLaws::count_le))]
fn groups_right(edition: Edition, count: usize, groups: GroupValues) -> bool
    ensures { (i : Ids) → result ≡ groups_right edition count (besides groups i) }
{
    is_count(edition, count) && is_zero(&groups, count, GROUPS - count)
}

fn put_slac_parm_req(out: &mut [u8], run: u64)
    ensures { (e : Edition) (d f : ℕ) → out.new ≡ sets out.old 0 (encode (payload e slac_parm_req 0 d f) (run, tt)) }
{
    put_number(out, 0, 2, 0);
    put_number(out, 2, 8, run);
}

fn put_slac_parm_cnf(out: &mut [u8], edition: Edition, car: u64, attempt: u64, run: u64)
    ensures { (f : ℕ) → out.new ≡ sets out.old 0 (encode (payload edition slac_parm_cnf 0 car f) (attempt, (run, tt))) }
{
    put_number(out, 0, 6, BROADCAST);
    put_number(out, 6, 2, attempt);
    put_number(out, 8, 1, resp_type(edition));
    put_number(out, 9, 6, forwarding_to(edition, car));
    put_number(out, 15, 2, 0);
    put_number(out, 17, 8, run);
}

fn put_start_atten_char_ind(out: &mut [u8], edition: Edition, car: u64, attempt: u64, run: u64)
    ensures { (d : ℕ) → out.new ≡ sets out.old 0 (encode (payload edition start_atten_char_ind 0 d car) (attempt, (run, tt))) }
{
    put_number(out, 0, 2, 0);
    put_number(out, 2, 2, attempt);
    put_number(out, 4, 1, resp_type(edition));
    put_number(out, 5, 6, forwarding_to(edition, car));
    put_number(out, 11, 8, run);
}

fn put_mnbc_sound_ind(out: &mut [u8], count: u8, run: u64, random: Random, first: IdOctets)
    ensures { (e : Edition) (d f : ℕ) → out.new ≡ sets out.old 0 (encode (payload e mnbc_sound_ind 0 d f) (first, (count, (run, (random.0, (random.1, tt)))))) }
{
    put_number(out, 0, 2, 0);
    put_id(out, 2, first);
    put_number(out, 19, 1, u64::from(count));
    put_number(out, 20, 8, run);
    put_number(out, 28, 8, 0);
    put_number(out, 36, 8, random.0);
    put_number(out, 44, 8, random.1);
}

fn put_atten_char_ind(
    out: &mut [u8],
    car: u64,
    run: u64,
    sounds: u8,
    count: usize,
    groups: GroupValues,
    ids: Ids,
)
    requires { count ≤ group_count }
    ensures { (e : Edition) (f : ℕ) → out.new ≡ sets out.old 0 (encode (payload e atten_char_ind count car f) (run, (ids.first, (ids.second, (sounds, (groups, tt)))))) }
{
    put_number(out, 0, 2, 0);
    put_number(out, 2, 6, car);
    put_number(out, 8, 8, run);
    put_id(out, 16, ids.first);
    put_id(out, 33, ids.second);
    put_number(out, 50, 1, u64::from(sounds));
    put_number(out, 51, 1, count as u64);
    put_groups(out, 52, count, groups);
}

fn put_atten_char_rsp(out: &mut [u8], car: u64, run: u64, ids: Ids)
    ensures { (e : Edition) (d : ℕ) → out.new ≡ sets out.old 0 (encode (payload e atten_char_rsp 0 d car) (run, (ids.first, (ids.second, tt)))) }
{
    put_number(out, 0, 2, 0);
    put_number(out, 2, 6, car);
    put_number(out, 8, 8, run);
    put_id(out, 16, ids.first);
    put_id(out, 33, ids.second);
    put_number(out, 50, 1, 0);
}

fn put_atten_profile_ind(out: &mut [u8], car: u64, count: usize, groups: GroupValues)
    requires { count ≤ group_count }
    ensures { (e : Edition) (d f : ℕ) → out.new ≡ sets out.old 0 (encode (payload e atten_profile_ind count d f) (car, (groups, tt))) }
{
    put_number(out, 0, 6, car);
    put_number(out, 6, 1, count as u64);
    put_number(out, 7, 1, 0);
    put_groups(out, 8, count, groups);
}

fn put_validate_req(out: &mut [u8], timer: u8)
    ensures { (e : Edition) (d f : ℕ) → out.new ≡ sets out.old 0 (encode (payload e validate_req 0 d f) (timer, tt)) }
{
    put_number(out, 0, 1, 0x00);
    put_low_number(out, 1, 1, u64::from(timer));
    put_number(out, 2, 1, 0x01);
}

fn put_validate_cnf(out: &mut [u8], toggles: u8, res: u8)
    ensures { (e : Edition) (d f : ℕ) → out.new ≡ sets out.old 0 (encode (payload e validate_cnf 0 d f) (toggles, (res, tt))) }
{
    put_number(out, 0, 1, 0x00);
    put_number(out, 1, 1, u64::from(toggles));
    put_low_number(out, 2, 1, u64::from(res));
}

// Writes octets 0-65 of a match message.
fn put_match(out: &mut [u8], mvflength: u64, car: u64, station: u64, run: u64, ids: Ids)
    ensures { (e : Edition) → out.new ≡ sets out.old 0 (encode (match_fields e mvflength car station []) (ids.first, (ids.second, (run, tt)))) }
{
    put_number(out, 0, 2, 0);
    put_number(out, 2, 2, mvflength);
    put_id(out, 4, ids.first);
    put_number(out, 21, 6, car);
    put_id(out, 27, ids.second);
    put_number(out, 44, 6, station);
    put_number(out, 50, 8, run);
    put_number(out, 58, 8, 0);
}

fn put_slac_match_cnf(
    out: &mut [u8],
    car: u64,
    station: u64,
    run: u64,
    nid: Nid,
    nmk: Nmk,
    ids: Ids,
)
    ensures { (e : Edition) → out.new ≡ sets out.old 0 (encode (payload e slac_match_cnf 0 car station) (ids.first, (ids.second, (run, (nid.0, (nmk.0, (nmk.1, tt))))))) }
{
    put_match(out, 0x5600, car, station, run, ids);
    put_low_number(out, 66, 7, nid.0);
    put_number(out, 73, 1, 0);
    put_number(out, 74, 8, nmk.0);
    put_number(out, 82, 8, nmk.1);
}

impl Outgoing {
    // The head of the message, unless an address (5) or a value (6) is wrong. By their types the values that are not tested fit.
    pub(crate) fn head(self) -> Result<Head, Refusal>
        ensures { Judges result (means self) }
    {
        let edition = self.edition;
        match self.message {
            Message::SlacParmReq { car, .. } => judge(
                Head::of(Kind::SlacParmReq, 0, BROADCAST, car.0),
                true,
                true,
            ),
            Message::SlacParmCnf {
                station,
                car,
                attempt,
                ..
            } => judge(
                Head::of(Kind::SlacParmCnf, 0, car.0, station.0),
                is_unicast(car.0),
                is_attempt(edition, attempt.0),
            ),
            Message::StartAttenCharInd { car, attempt, .. } => judge(
                Head::of(Kind::StartAttenCharInd, 0, BROADCAST, car.0),
                true,
                is_attempt(edition, attempt.0),
            ),
            Message::AttenCharInd {
                station,
                car,
                count,
                ..
            } => judge(
                Head::of(Kind::AttenCharInd, count, car.0, station.0),
                is_unicast(car.0),
                ids_right(edition, self.ids) & groups_right(edition, count, self.groups),
            ),
            Message::AttenCharRsp { car, station, .. } => judge(
                Head::of(Kind::AttenCharRsp, 0, station.0, car.0),
                is_unicast(station.0),
                ids_right(edition, self.ids),
            ),
            Message::MnbcSoundInd { car, .. } => judge(
                Head::of(Kind::MnbcSoundInd, 0, BROADCAST, car.0),
                true,
                id_right(edition, self.ids.first),
            ),
            Message::ValidateReq {
                car,
                receiver,
                timer,
            } => judge(
                Head::of(Kind::ValidateReq, 0, receiver.0, car.0),
                is_receiver(receiver.0),
                u64::from(timer) < timer_limit(receiver.0),
            ),
            Message::ValidateCnf {
                station,
                car,
                result,
                ..
            } => judge(
                Head::of(Kind::ValidateCnf, 0, car.0, station.0),
                is_unicast(car.0),
                result < RESULT_LIMIT,
            ),
            Message::SlacMatchReq { car, station, .. } => judge(
                Head::of(Kind::SlacMatchReq, 0, station.0, car.0),
                is_unicast(station.0),
                ids_right(edition, self.ids),
            ),
            Message::SlacMatchCnf {
                station,
                car,
                nid,
                ..
            } => judge(
                Head::of(Kind::SlacMatchCnf, 0, car.0, station.0),
                is_unicast(car.0),
                ids_right(edition, self.ids) & (nid.0 < NID_LIMIT),
            ),
            Message::AttenProfileInd {
                modem,
                station,
                car,
                count,
            } => judge(
                Head::of(Kind::AttenProfileInd, count, station.0, modem.0),
                is_unicast(station.0) & is_unicast(car.0),
                groups_right(edition, count, self.groups),
            ),
        }
    }

    // Writes the payload of the message, in the part that its row of the table says.
    #[tactic(auto, using(crate::proofs::WriteLaws::payload_room, crate::proofs::WriteLaws::payload_most))]
    fn put_payload(self, out: &mut [u8])
        requires { PayloadRoom (means self) (length out.old) }
        ensures { out.new ≡ sets out.old 0 (payload_octets (means self)) }
    {
        let ids = self.ids;
        match self.message {
            Message::SlacParmReq { run, .. } => put_slac_parm_req(&mut out[0..10], run.0),
            Message::SlacParmCnf {
                car,
                attempt,
                run,
                ..
            } => put_slac_parm_cnf(&mut out[0..25], self.edition, car.0, attempt.0, run.0),
            Message::StartAttenCharInd { car, attempt, run } => put_start_atten_char_ind(
                &mut out[0..19],
                self.edition,
                car.0,
                attempt.0,
                run.0,
            ),
            Message::AttenCharInd {
                car,
                run,
                sounds,
                count,
                ..
            } => put_atten_char_ind(
                &mut out[0..52 + count],
                car.0,
                run.0,
                sounds,
                count,
                self.groups,
                ids,
            ),
            Message::AttenCharRsp { car, run, .. } => put_atten_char_rsp(
                &mut out[0..51],
                car.0,
                run.0,
                ids,
            ),
            Message::MnbcSoundInd {
                count,
                run,
                random,
                ..
            } => put_mnbc_sound_ind(&mut out[0..52], count, run.0, random, ids.first),
            Message::ValidateReq { timer, .. } => put_validate_req(&mut out[0..3], timer),
            Message::ValidateCnf {
                toggles,
                result,
                ..
            } => put_validate_cnf(&mut out[0..3], toggles, result),
            Message::SlacMatchReq { car, station, run } => put_match(
                &mut out[0..66],
                0x3E00,
                car.0,
                station.0,
                run.0,
                ids,
            ),
            Message::SlacMatchCnf {
                station,
                car,
                run,
                nid,
                nmk,
            } => put_slac_match_cnf(&mut out[0..90], car.0, station.0, run.0, nid, nmk, ids),
            Message::AttenProfileInd { car, count, .. } => put_atten_profile_ind(
                &mut out[0..8 + count],
                car.0,
                count,
                self.groups,
            ),
        }
    }

    // Writes the message's frame.
    pub(crate) fn put_frame(self, head: Head, out: &mut [u8])
        requires { Heads head (means self) × FrameRoom (means self) (length out.old) }
        ensures { out.new ≡ sets out.old 0 (frame (means self)) }
    {
        let filled = head.form.filled_size();
        let written = head.form.written_size();
        put_head(
            &mut out[0..HEAD],
            head.dst,
            head.src,
            head.form.kind.number(),
        );
        self.put_payload(&mut out[HEAD..filled]);
        put_number(&mut out[filled..written], 0, written - filled, 0);
    }
}
