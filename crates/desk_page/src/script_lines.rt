//! What the page makes of the bridge's texts, and the lines that clicks send.
//! `tools/bridge make page` writes this file, from these files of web/:
//! advice.js, lines.js, overview.js, kept.js, levels.js, stats.js, people.js, news.js, plots.js, rules.js, history.js.

/// advice.js
pub(crate) const ADVICE_JS: &[u8] = br##"
// What refusals and faults mean, and what to do. `tools/bridge make words` writes this.
export const advice = {
  1: "it is there already: take another number, address, SSRC or index, or remove what is there",
  2: "there is no such room: it may have been removed",
  3: "there is no such member: it may have been removed",
  4: "there is no such source: it may have gone with its member",
  5: "there is no such slot: it may have gone with its member",
  6: "the source is of the other kind: `set-gain` takes audio, `subscribe` and `pin` take video",
  7: "they are in two rooms: move the member, or choose within the room",
  8: "the SSRC is used already: take another one",
  9: "a value is out of range: port 1 to 65535, index 0 to 15, gain 0 to 1024, rate 8000 or 44100",
  10: "nothing to do: the desk is so already",
  11: "nothing to do: there is none to take away",
  12: "the table is full: remove something, or use another room",
  13: "the bridge is out of memory: try again",
  14: "another change came first: look at it, then name its number, or take your own call back by `revert`",
  15: "there is nothing to undo",
  16: "there is nothing to redo",
  17: "the log is full: start the bridge anew",
  18: "the group is empty",
  19: "the group has over 64 commands: make it smaller",
  20: "one command of the group is refused, so none of it happened",
  21: "the room has another rate: one of 44100 Hz takes l16 alone, and members move between rooms of one rate",
  22: "the log is another bridge's: start the bridge anew",
  23: "no such call is in force: it was undone or reverted, is an undo or a redo, or was never made; see `history`",
  24: "over 256 commands lie behind it: give the command that takes it back, such as `unmute`",
  25: "a later call rests on it: revert that one first, or give the command that takes yours back",
  26: "somebody else would come or go with it: give the command that takes it back",
  27: "the lease has ended: only its holder may call, till a new one or `lease off`",
};
export const faults = {
  1: "the line is too long: 4096 octets are the most",
  2: "an octet is none of a space to ~, and ends the connection",
  3: "the word is none of those that may stand there",
  4: "a word is missing",
  5: "a word is too many, and each space makes one, also at the end",
  6: "that is no number, or out of range",
  7: "that is no address, such as 127.0.0.1:6000",
  8: "those are no octets in hexadecimal",
  9: "those packets make no frame",
};
"##;

/// lines.js
pub(crate) const LINES_JS: &[u8] = br##"
// What the page makes of the desk's text, and the lines that clicks send. No function touches the page.
import { advice, faults } from "./advice.js";
import { callerInWords, newerIn } from "./people.js";
import { againstRevert } from "./history.js";

// The rates of rooms, in Hz.
export const SPEECH = 8000, MUSIC = 44100;

// The desk as it stands in the text of /desk.txt: the lines of `show`, and behind `end VERSION` the names' version and
// what the program calls this text.
export function parseDesk(text) {
  const desk = { rooms: [], rates: new Map(), members: [], sources: [], slots: [], subs: new Map(), mutes: new Set(),
    gains: new Map(), pins: new Map(), floors: new Map(), version: 0, rows: [], named: 0, state: "" };
  for (const line of text.split("\n")) {
    if (line.startsWith("end ")) desk.version = Number(line.slice(4));
    else if (line.startsWith("names ")) desk.named = Number(line.slice(6));
    else if (line.startsWith("state ")) desk.state = line.slice(6);
    else if (line !== "") {
      desk.rows.push(line);
      addRow(desk, rowOf(line));
    }
  }
  return desk;
}

// A row as the desk keeps it: where it goes, and what. A row that has come before isn't read again.
const read = new Map(), MOST_READ = 200000;
function rowOf(line) {
  if (read.size >= MOST_READ) read.clear();
  if (!read.has(line)) read.set(line, rowIn(line.split(" ")));
  return read.get(line);
}
function rowIn([kind, ...word]) {
  const n = word.map(Number);
  if (kind === "room") return { kind, room: n[0], rate: n[1] ?? SPEECH };
  if (kind === "member") return { kind, into: "members", row: memberIn(n, word) };
  if (kind === "source") return { kind, into: "sources", row: { ssrc: n[0], member: n[1], kind: word[2] } };
  if (kind === "slot") return { kind, into: "slots", row: { ssrc: n[0], member: n[1], index: n[2] } };
  if (kind === "mute") return { kind, source: n[0] };
  if (kind === "gain") return { kind, under: "gains", key: `${n[0]} ${n[1]}`, value: n[2] };
  const under = { sub: "subs", pin: "pins", floor: "floors" }[kind];
  return under ? { kind, under, key: n[0], value: n[1] } : { kind };
}
function addRow(desk, { into, row, under, key, value, room, rate, source }) {
  if (into) desk[into].push(row);
  else if (under) desk[under].set(key, value);
  else if (source !== undefined) desk.mutes.add(source);
  else if (room !== undefined) {
    desk.rooms.push(room);
    desk.rates.set(room, rate);
  }
}

function memberIn([place, member, room, , , mix], [, , , address, codec]) {
  return { place, member, room, address, codec, mix };
}

export function isMusic(desk, room) { return desk.rates.get(room) === MUSIC; }

// The rows of a list by one of their fields. It is made once for each list.
const indexes = new WeakMap();
export function by(rows, field) {
  if (!indexes.has(rows)) indexes.set(rows, {});
  const known = indexes.get(rows);
  if (!known[field]) {
    known[field] = new Map();
    for (const row of rows) {
      if (!known[field].has(row[field])) known[field].set(row[field], []);
      known[field].get(row[field]).push(row);
    }
  }
  return known[field];
}
export function withField(rows, field, value) { return by(rows, field).get(value) ?? []; }
export function memberOf(desk, number) { return withField(desk.members, "member", number)[0]; }
export function sourceOf(desk, ssrc) { return withField(desk.sources, "ssrc", ssrc)[0]; }
export function sourcesOf(desk, member, kind) {
  return withField(desk.sources, "member", member).filter((s) => !kind || s.kind === kind);
}
export function slotsOf(desk, member) {
  return [...withField(desk.slots, "member", member)].sort((a, b) => a.index - b.index);
}
export function membersIn(desk, room) { return withField(desk.members, "room", room); }

// The source that the rules of the desk choose for a slot, and the rule.
function chosen(desk, slot) {
  const room = memberOf(desk, slot.member).room;
  if (desk.subs.has(slot.ssrc)) return { source: desk.subs.get(slot.ssrc), by: "sub" };
  if (slot.index !== 0) return { source: null, by: null };
  if (desk.pins.has(room)) return { source: desk.pins.get(room), by: "pin" };
  if (!desk.floors.has(room)) return { source: null, by: null };
  const held = sourcesOf(desk, desk.floors.get(room), "video").map((s) => s.ssrc);
  return { source: held.length ? Math.min(...held) : null, by: "floor" };
}

// What a slot shows, by which rule, and why it shows nothing.
export function seen(desk, slot) {
  const { source, by } = chosen(desk, slot);
  if (source === null) return { source, by, why: by ? "the floor's holder has no video" : "nothing is chosen" };
  if (desk.mutes.has(source)) return { source: null, by, why: `${source} is muted` };
  if (sourceOf(desk, source).member === slot.member) return { source: null, by, why: `${source} is its own` };
  return { source, by, why: "" };
}

// The video sources that a slot can be subscribed to, but for the one that it is.
export function videosFor(desk, slot) {
  const members = membersIn(desk, memberOf(desk, slot.member).room);
  const videos = members.flatMap((m) => sourcesOf(desk, m.member, "video")).map((s) => s.ssrc);
  return videos.filter((ssrc) => desk.subs.get(slot.ssrc) !== ssrc);
}

// The audio sources that a member hears or could hear, each with its gain.
export function heard(desk, member) {
  const others = membersIn(desk, member.room).filter((m) => m.member !== member.member);
  return others.flatMap((m) => sourcesOf(desk, m.member, "audio")).map((s) => {
    const gain = desk.gains.has(`${member.member} ${s.ssrc}`) ? desk.gains.get(`${member.member} ${s.ssrc}`) : 256;
    return { ssrc: s.ssrc, gain, muted: desk.mutes.has(s.ssrc) };
  });
}

// The rooms that a member can move to: those of its room's rate.
export function roomsFor(desk, member) {
  return desk.rooms.filter((room) => room !== member.room && isMusic(desk, room) === isMusic(desk, member.room));
}

// The codec of a new member: what was chosen, and else what fits the room.
export function codecOf(desk, { room, codec }) {
  return codec || (desk && isMusic(desk, Number(room)) ? "l16" : "pcmu");
}

// The lines that clicks and drags send.
export const lines = {
  addRoom: (room, rate) => (Number(rate) === MUSIC ? `add-room ${room} ${MUSIC}` : `add-room ${room}`),
  removeRoom: (room) => `remove-room ${room}`,
  addMember: (f, codec = f.codec) =>
    `add-member ${f.member} ${f.room} ${f.address} ${codec} ${f.ssrc} ${f.seq ?? 0} ${f.ts ?? 0}`,
  moveMember: (member, room) => `move-member ${member} ${room}`,
  removeMember: (member) => `remove-member ${member}`,
  addSource: (f) => `add-source ${f.ssrc} ${f.member} ${f.kind}`,
  removeSource: (ssrc) => `remove-source ${ssrc}`,
  addSlot: (f) => `add-slot ${f.ssrc} ${f.member} ${f.index} ${f.seq ?? 0} ${f.ts ?? 0}`,
  removeSlot: (ssrc) => `remove-slot ${ssrc}`,
  subscribe: (slot, source) => `subscribe ${slot} ${source}`,
  unsubscribe: (slot) => `unsubscribe ${slot}`,
  pin: (room, source) => `pin ${room} ${source}`,
  unpin: (room) => `unpin ${room}`,
  giveFloor: (room, member) => `give-floor ${room} ${member}`,
  takeFloor: (room) => `take-floor ${room}`,
  mute: (source) => `mute ${source}`,
  unmute: (source) => `unmute ${source}`,
  setGain: (member, source, q8) => `set-gain ${member} ${source} ${q8}`,
  undo: (version) => `undo ${version}`,
  redo: (version) => `redo ${version}`,
  revert: (number) => `revert ${number}`,
  group: (parts) => `group ${parts.join(" / ")}`,
};

// The line that a drop sends: a member on a room, or a source on a slot. Nothing where it would change nothing.
export function dropped(desk, drag, on) {
  if (drag.member !== undefined && on.room !== undefined) {
    const member = memberOf(desk, drag.member);
    return member && member.room !== on.room ? lines.moveMember(drag.member, on.room) : null;
  }
  if (drag.source !== undefined && on.slot !== undefined) {
    return desk.subs.get(on.slot) === drag.source ? null : lines.subscribe(on.slot, drag.source);
  }
  return null;
}

// A number from `least` on that no row of its kind has: a room, a member or an SSRC.
export function free(desk, kind, least) {
  const ssrcs = () => [desk.sources, desk.slots].flatMap((rows) => rows.map((row) => row.ssrc));
  const taken = new Set(kind === "room" ? desk.rooms : desk.members.map((m) => (kind === "ssrc" ? m.mix : m.member)));
  if (kind === "ssrc") for (const ssrc of ssrcs()) taken.add(ssrc);
  let number = least;
  while (taken.has(number)) number += 1;
  return number;
}

// The fields of forms that suggest a free number, each with its form and that number.
export function suggested(desk) {
  const fields = [["add-room", "room", 1], ["add-member", "member", 10], ["add-member", "ssrc", 9001],
    ["add-source", "ssrc", 101], ["add-slot", "ssrc", 501]];
  return fields.map(([form, field, least]) => [form, field, free(desk, field, least)]);
}

// An answer of the bridge in words. `seen` is what the page knows: the names, the desk and the history.
export function inWords(said, seen = {}) {
  const word = said.split(" ");
  if (word[0] === "ok") return { good: true, text: `accepted as version ${word[1]}` };
  if (word[0] === "no") {
    const part = word[2] === "20" ? ` Command ${Number(word[4]) + 1} of it: ${advice[word[5]] ?? word[6]}.` : "";
    const revert = againstRevert(seen, word.slice(2)), code = word.slice(2, revert ? 4 : undefined).join(" ");
    return { good: false, text: `refused (${code}): ${revert ?? advice[word[2]] ?? word[3]}.${part}` };
  }
  if (word[0] === "fault") {
    return { good: false, text: `not understood (${said}): at word ${word[1]}, ${faults[word[2]] ?? word[3]}.` };
  }
  return { good: false, text: "no answer came: look at the desk before you send it again." };
}

// A response of the page to a call, in words: 200 has the bridge's answer.
const NO_SEAT = "The page needs a seat: set operators to one more in the bridge's settings.";
export function replyInWords(status, text, seen) {
  if (status === 200) return inWords(text, seen);
  if (text.startsWith("Busy")) {
    return { good: false, text: `all seats of the bridge are taken, so nothing was done. ${NO_SEAT}` };
  }
  if (newerIn(text)) return { good: false, text: `not sent. ${callerInWords(newerIn(text), seen)}` };
  const plain = status === 413 ? "a call is one line of up to 4096 octets" : String(status);
  return { good: false, text: text || plain };
}

// A response to new names that weren't kept, in words.
export function nameRefusal(status, text) {
  if (/^no [0-9]+ Unsaved/.test(text)) return "the file of names can't be written, so nothing was changed.";
  if (/^no [0-9]+ NoNames/.test(text)) return "that is no name.";
  return status === 413 ? "there are too many names." : text || String(status);
}

// The rooms of which something changed between two desks: those of the rows that came or went.
export function changedRooms(before, after, rows) {
  // A member's place may shift, and then the same row goes and comes.
  const times = new Map(), plain = (row) => row.slice(2).replace(/^member [0-9]+ /, "member ");
  for (const row of rows) times.set(plain(row), (times.get(plain(row)) ?? 0) + 1);
  const rooms = new Set(), words = [...times].filter(([, count]) => count === 1).map(([row]) => row.split(" "));
  for (const [kind, first, second] of words) {
    for (const desk of [before, after]) {
      const room = roomOf(desk, kind, Number(first), Number(second));
      if (room !== undefined) rooms.add(room);
    }
  }
  return rooms;
}
function roomOf(desk, kind, first, second) {
  if (["room", "pin", "floor"].includes(kind)) return first;
  const member = { member: first, gain: first, source: second, slot: second,
    sub: withField(desk.slots, "ssrc", first)[0]?.member, mute: sourceOf(desk, first)?.member }[kind];
  return memberOf(desk, member)?.room;
}

// The rows that went and that came between two desks.
export function changes(before, after) {
  let from = 0, end = 0;
  const least = Math.min(before.length, after.length);
  while (from < least && before[from] === after[from]) from += 1;
  while (end < least - from && before[before.length - 1 - end] === after[after.length - 1 - end]) end += 1;
  const old = before.slice(from, before.length - end), now = after.slice(from, after.length - end);
  const had = new Set(old), has = new Set(now);
  const went = old.filter((row) => !has.has(row)), came = now.filter((row) => !had.has(row));
  return [...went.map((row) => `- ${row}`), ...came.map((row) => `+ ${row}`)];
}
"##;

/// overview.js
pub(crate) const OVERVIEW_JS: &[u8] = br##"
// Names, what the overview says, and what is done with many members. No function touches the page.
import { isMusic, lines, memberOf, membersIn, seen, slotsOf, sourceOf, sourcesOf } from "./lines.js";

// Names. They are kept by `member 10`, `room 1` or `source 201`, and a source without one has its member's.
export const LONGEST_NAME = 200;
export function nameOf(names, kind, number) { return names[`${kind} ${number}`] ?? ""; }
export function sourceName(names, desk, ssrc) {
  const source = sourceOf(desk, ssrc);
  return nameOf(names, "source", ssrc) || (source ? nameOf(names, "member", source.member) : "");
}
export function labelled(name, number) { return name ? `${name} (${number})` : String(number); }
export function cut(name) { return [...name.trim()].slice(0, LONGEST_NAME).join(""); }
export function renamed(names, kind, number, name) {
  const next = { ...names, [`${kind} ${number}`]: cut(name) };
  if (!cut(name)) delete next[`${kind} ${number}`];
  return next;
}

// The names in the text of /names, and their version. What isn't a name is left out.
export function parseNames(text) {
  const end = text.indexOf("\n"), version = Number(text.slice(6, end));
  const pairs = Object.entries(JSON.parse(text.slice(end + 1))).filter(([, name]) => typeof name === "string");
  return { version, names: Object.fromEntries(pairs) };
}

// What a line of the overview says of a member.
export function memberLine(desk, names, member) {
  const sends = sourcesOf(desk, member.member).map((s) =>
    ({ ssrc: s.ssrc, kind: s.kind, muted: desk.mutes.has(s.ssrc), name: nameOf(names, "source", s.ssrc) }));
  const sees = slotsOf(desk, member.member).map((slot) => {
    const { source, by: rule, why } = seen(desk, slot);
    const name = source === null ? "" : sourceName(names, desk, source);
    return source === null ? { slot: slot.ssrc, source, why } :
      { slot: slot.ssrc, source, by: rule, name, label: labelled(name, source) };
  });
  const audio = sends.filter((s) => s.kind === "audio"), floor = desk.floors.get(member.room) === member.member;
  const muted = audio.length > 0 && audio.every((s) => s.muted);
  return { member: member.member, name: nameOf(names, "member", member.member), sends, sees, floor, muted,
    hasAudio: audio.length > 0, odd: floor && muted };
}

// What the head of a room says.
export function roomLine(desk, names, room) {
  const members = membersIn(desk, room), floor = desk.floors.get(room), pin = desk.pins.get(room);
  const voices = members.flatMap((m) => sourcesOf(desk, m.member, "audio"));
  const holder = floor === undefined ? [] : sourcesOf(desk, floor, "audio");
  return { room, name: nameOf(names, "room", room), music: isMusic(desk, room), members: members.length,
    muted: voices.filter((s) => desk.mutes.has(s.ssrc)).length,
    floor: floor === undefined ? null : { member: floor, label: labelled(nameOf(names, "member", floor), floor) },
    pin: pin === undefined ? null : { ssrc: pin, label: labelled(sourceName(names, desk, pin), pin) },
    odd: holder.length > 0 && holder.every((s) => desk.mutes.has(s.ssrc)) };
}

// Whether a member or a room fits what is looked for: all of its words, in any case.
function fits(words, texts) {
  const text = texts.join(" ").toLowerCase();
  return words.every((word) => text.includes(word));
}
export function wordsOf(text) { return text.toLowerCase().split(/\s+/).filter((word) => word !== ""); }
function memberFits(desk, names, member, words) {
  const ssrcs = sourcesOf(desk, member.member).flatMap((s) => [s.ssrc, nameOf(names, "source", s.ssrc)]);
  const slots = slotsOf(desk, member.member).map((s) => s.ssrc);
  const name = nameOf(names, "member", member.member);
  return fits(words, [member.member, name, member.address, member.mix, ...ssrcs, ...slots]);
}

// The rooms with the members that are shown: all of a room that fits itself, and otherwise those that fit. Where only
// some are counted, rooms without one are left out. `placeOf` is a room's place by trouble or by who speaks.
export function overview(desk, names, search, sort, isShown = null, placeOf = () => 0) {
  const words = wordsOf(search);
  const roomFits = (room) => words.length === 0 || fits(words, [`room ${room}`, nameOf(names, "room", room)]);
  const found = desk.rooms.map((room) => {
    const counted = isShown ? membersIn(desk, room).filter(isShown) : membersIn(desk, room);
    if (roomFits(room)) return { room, members: counted };
    return { room, members: counted.filter((member) => memberFits(desk, names, member, words)) };
  }).filter(({ room, members }) => members.length > 0 || (!isShown && roomFits(room)));
  const text = ({ room }) => nameOf(names, "room", room).toLowerCase() || "\uffff";
  const order = { number: (a, b) => a.room - b.room, members: (a, b) => b.members.length - a.members.length,
    name: (a, b) => text(a).localeCompare(text(b)) }, placed = (a, b) => placeOf(a.room) - placeOf(b.room);
  return found.sort((a, b) => (order[sort] ?? placed)(a, b) || a.room - b.room);
}

// Groups. One of one command is that command, and none is nothing.
export const MOST_PARTS = 64;
export function grouped(parts) { return parts.length < 2 ? parts[0] ?? null : lines.group(parts); }
export function voicesOf(desk, members, muted) {
  return members.flatMap((member) => sourcesOf(desk, member, "audio")).filter((s) => desk.mutes.has(s.ssrc) === muted);
}
// Mutes members, or unmutes them where all are muted already.
export function toggled(desk, members) {
  const loud = voicesOf(desk, members, false).map((s) => lines.mute(s.ssrc));
  return loud.length ? loud : voicesOf(desk, members, true).map((s) => lines.unmute(s.ssrc));
}
export function othersMuted(desk, member) {
  const others = membersIn(desk, memberOf(desk, member).room).map((m) => m.member).filter((m) => m !== member);
  return voicesOf(desk, others, false).map((s) => lines.mute(s.ssrc));
}
export function movedAll(desk, members, room) {
  const moving = members.map((number) => memberOf(desk, number)).filter((m) => m && m.room !== room);
  return moving.map((m) => lines.moveMember(m.member, room));
}

// What goes along with a room: a count of each kind.
export function goesAlong(desk, room) {
  const members = membersIn(desk, room).map((m) => m.member);
  const counts = [["member", members.length], ["source", members.flatMap((m) => sourcesOf(desk, m)).length],
    ["slot", members.flatMap((m) => slotsOf(desk, m)).length]];
  return counts.map(([what, count]) => `${count} ${what}${count === 1 ? "" : "s"}`).join(", ");
}
"##;

/// kept.js
pub(crate) const KEPT_JS: &[u8] = br##"
// The desk as a file: groups that make all its rows again, as `tools/bridge keep` prints them. No function touches the
// page.
import { MOST_PARTS } from "./overview.js";

// A stream begins anew at its FIRST_SEQ, which is moved on, or a receiver might take new packets for old ones.
const FURTHER = 1000, MOST_OCTETS = 4096;
// The command that makes a row of each kind, and the first word of the row that the command has too.
const MAKING = { room: ["add-room", 1], member: ["add-member", 2], source: ["add-source", 1], slot: ["add-slot", 1],
  sub: ["subscribe", 1], mute: ["mute", 1], gain: ["set-gain", 1], pin: ["pin", 1], floor: ["give-floor", 1] };

function commandOf(row) {
  const words = row.split(" "), [verb, first] = MAKING[words[0]], place = words.length - 2;
  if (["member", "slot"].includes(words[0])) words[place] = String((Number(words[place]) + FURTHER) % 65536);
  return [verb, ...words.slice(first)].join(" ");
}

// As few groups as these commands take, in their order.
function groupsOf(commands) {
  const groups = [];
  let count = MOST_PARTS;
  for (const command of commands) {
    const last = groups.length - 1;
    if (count === MOST_PARTS || groups[last].length + " / ".length + command.length > MOST_OCTETS) {
      groups.push(`group ${command}`);
      count = 1;
    } else {
      groups[last] += ` / ${command}`;
      count += 1;
    }
  }
  return groups;
}

// The last line tells how much there is: without it the file was cut.
function endOf(groups) {
  return `# end: ${groups.length} groups of ${groups.flatMap((group) => group.split(" / ")).length} commands`;
}
export function keptText(desk) {
  const groups = groupsOf(desk.rows.map(commandOf));
  const head = `# the desk of version ${desk.version}: FIRST_SEQ of each stream is ${FURTHER} further on, as streams `;
  return `${[`${head}begin anew`, ...groups, endOf(groups)].join("\n")}\n`;
}

// The groups of such a text, or null where it isn't whole.
export function groupsIn(text) {
  const lines = text.split("\n").filter((line) => line !== ""), groups = lines.filter((line) => !line.startsWith("#"));
  const areGroups = groups.every((group) => group.startsWith("group ") && group.length <= MOST_OCTETS);
  return areGroups && lines[lines.length - 1] === endOf(groups) ? groups : null;
}
"##;

/// levels.js
pub(crate) const LEVELS_JS: &[u8] = br##"
// How loud a source of sound is, and who speaks, by what two counts differ in. No function touches the page.

// The energy of the loudest sample in the bridge's units, and how many times less -45 and -52 dBov are.
const LOUDEST = 2 ** 20, LOUD = 31623, QUIET = 158489;
// One speaks after so many loud quarters of a second in a row, and ceases after so many quiet ones.
const QUARTER = 250, LOUD_ROW = 2, QUIET_ROW = 4;
// The least level that is told, that of a span without a sample (RFC 6464). Two counts that are further apart than so
// many milliseconds say nothing of now.
export const LEAST_LEVEL = -127, LONGEST_SPAN = 5000;
const NO_SOUND = { level: null, isSpeaking: false, loud: 0, quiet: 0 };

// The level of a span in dBov, by its samples and their energy.
export function levelOf(samples, energy) {
  return samples > 0 ? Math.max(LEAST_LEVEL, 10 * Math.log10(energy / (LOUDEST * samples))) : LEAST_LEVEL;
}

// Who speaks, after a span of so many milliseconds. The rule is of quarters of a second. Who counts less often takes
// each quarter for as loud as the whole span.
export function speechAfter({ isSpeaking, loud, quiet }, samples, energy, ms) {
  const quarters = Math.max(1, Math.round(ms / QUARTER));
  const isLoud = energy * LOUD > samples * LOUDEST, isQuiet = samples === 0 || energy * QUIET < samples * LOUDEST;
  const louder = isLoud ? Math.min(LOUD_ROW, loud + quarters) : 0;
  const quieter = isQuiet ? Math.min(QUIET_ROW, quiet + quarters) : 0;
  return { isSpeaking: louder === LOUD_ROW || (isSpeaking && quieter < QUIET_ROW), loud: louder, quiet: quieter };
}

// What a count tells of a source's sound, with the one before. A source that wasn't counted before, or that was
// forgotten meanwhile, began at 0. Before a first count nothing is known, and of a picture never.
export function soundOf(now, before, ms) {
  if (typeof now.samples !== "number" || ms === null || ms > LONGEST_SPAN) return NO_SOUND;
  const isSame = typeof before?.samples === "number" && before.samples <= now.samples;
  const samples = now.samples - (isSame ? before.samples : 0), energy = now.energy - (isSame ? before.energy : 0);
  return { level: levelOf(samples, energy), ...speechAfter(before?.sound ?? NO_SOUND, samples, energy, ms) };
}

// A level in words, of a member that is muted or not.
export function levelInWords(level, isSpeaking = false, isMuted = false) {
  if (level === null) return "level not known";
  if (level === LEAST_LEVEL) return "no sound";
  const dbov = `${Math.round(level).toString().replace("-", "\u2212")} dBov`;
  if (!isSpeaking) return dbov;
  return `${isMuted ? "speaks while muted" : "speaks"}, ${dbov}`;
}
// A gain of 256ths in words.
export const gainInWords = (q8) => `x${(q8 / 256).toFixed(2)}`;
// The span of two counts in words.
export function spanInWords(ms) {
  return ms === null || ms > LONGEST_SPAN ? "" : `last ${Math.max(1, Math.round(ms / 1000))} s`;
}
"##;

/// stats.js
pub(crate) const STATS_JS: &[u8] = br##"
import { codecOf, free, lines, memberOf, sourceOf, withField } from "./lines.js";
import { soundOf } from "./levels.js";

// What the bridge counts, as /stats tells it. No function touches the page.

// A source from which nothing has come for so long is silent, in milliseconds.
const SILENT = 2000;
// What begins to lose many packets loses more than this share, and ceases below that one. Of a source it is the share
// of the last 10 s.
const LOSSY = 0.02, FAIR = 0.01, WINDOW = 10000;
// The payload types of sound: PCMU and the two of L16 (RFC 3551).
const SOUND_TYPES = [0, 10, 11];

// What a source has lost of late: its share, or null where nothing was due; whether that is much; and the counts that
// tell it. One that began anew is counted from its beginning.
function lossOf({ expected, lost }, before, at) {
  const isAnew = !before || before.expected > expected, old = isAnew ? [{ at, expected: 0, lost: 0 }] : before.counts;
  const counts = [...old.filter((one) => one.at >= at - WINDOW), { at, expected, lost }];
  const due = expected - counts[0].expected, share = due > 0 ? Math.max(0, lost - counts[0].lost) / due : null;
  const isLossy = before?.isLossy && !isAnew ? share >= FAIR : share > LOSSY;
  return { counts, share, isLossy };
}
// What a stream has lost, by the last report of its receiver.
function lossOut({ fraction }, before) {
  const share = typeof fraction === "number" ? fraction / 256 : null;
  return { share, isLossy: before?.isLossy ? share >= FAIR : share > LOSSY };
}

// The counts of sources by address and SSRC, those of streams by SSRC, and the senders that are no source. `before` is
// the count before, if any, and `at` the moment, in milliseconds.
export function parseStats(text, before = null, at = 0) {
  const told = JSON.parse(text), span = before ? at - before.at : null;
  const sources = new Map((told.sources ?? []).map((one) => [`${one.address} ${one.ssrc}`, one]));
  for (const [key, one] of sources) {
    const old = before?.sources.get(key);
    Object.assign(one, lossOf(one, old, at));
    one.sound = soundOf(one, old, span);
  }
  const streams = new Map((told.streams ?? []).map((one) => [one.out_ssrc, one]));
  for (const [ssrc, one] of streams) Object.assign(one, lossOut(one, before?.streams.get(ssrc)));
  return { at, span, sources, streams, strangers: told.strangers ?? [], figures: { desk: null, of: new Map() } };
}

// How long ago something came, in words.
export function agoInWords(ms) {
  if (ms < 1000) return "just now";
  if (ms < 60000) return `${Math.floor(ms / 1000)} s ago`;
  return ms < 3600000 ? `${Math.floor(ms / 60000)} min ago` : `${Math.floor(ms / 3600000)} h ago`;
}

// What came of a declared source, or null where nothing is known. A bridge counts by the address of its member.
export function countOf(stats, desk, ssrc) {
  if (!stats) return null;
  const address = memberOf(desk, sourceOf(desk, ssrc)?.member)?.address;
  return stats.sources.get(`${address} ${ssrc}`) ?? { packets: 0, lost: 0, ago_ms: null };
}
// Whether nothing comes of a source that is declared.
function isStill(count) { return !count || count.ago_ms === null || count.ago_ms >= SILENT; }
export function isSilent(stats, desk, ssrc) { return stats !== null && isStill(countOf(stats, desk, ssrc)); }
export function isLossy(stats, desk, ssrc) {
  return countOf(stats, desk, ssrc)?.isLossy === true;
}
export function countInWords(count) {
  if (count === null) return "";
  if (count.ago_ms === null) return "no packet came";
  const late = count.share > 0 ? `, ${(100 * count.share).toFixed(1)} percent of late` : "";
  const jitter = typeof count.jitter_ms === "number" ? `, jitter ${count.jitter_ms} ms` : "";
  const told = `${count.packets} packets, ${count.lost} lost${late}${jitter}, the last one ${agoInWords(count.ago_ms)}`;
  return `${told}${whyInWords(count)}`;
}
// Why a source isn't heard, though packets of it come.
function whyInWords({ bad_payload: bad, bad_type: type, silent_ms: silent }) {
  const dropped = bad > 0 ? `; ${bad} dropped as no sound of its room, the last one of type ${type}` : "";
  return silent >= SILENT ? `${dropped}; silent for ${Math.floor(silent / 1000)} s of its sound` : dropped;
}
// What the receiver of a stream says of it.
export function streamInWords(count) {
  const percent = count && count.share !== null ? `${(100 * count.share).toFixed(1)} percent lost` : "";
  const times = [["jitter", count?.jitter_ms], ["round trip", count?.round_trip_ms]];
  const words = times.flatMap(([what, ms]) => (typeof ms === "number" ? [`${what} ${ms} ms`] : []));
  return [percent, ...words].filter(Boolean).join(", ") || "no report came";
}

// The figures of a member: the level of its loudest source and whether one speaks, and the worst of the loss, jitter
// and round trip of its sources and of the streams to it. What isn't known is null.
export const UNKNOWN = { level: null, isSpeaking: false, lossIn: null, jitter: null, lossOut: null, trip: null,
  isSilent: false, isLosingIn: false, isLosingOut: false, look: "" };
const most = (a, b) => (typeof b !== "number" ? a : Math.max(a ?? b, b));
export function figuresOf(desk, stats, member) {
  if (!stats) return UNKNOWN;
  const { figures } = stats;
  if (figures.desk !== desk) stats.figures = { desk, of: new Map() };
  const { of } = stats.figures;
  if (!of.has(member.member)) of.set(member.member, countedOf(desk, stats, member));
  return of.get(member.member);
}
function countedOf(desk, stats, { member, address, mix }) {
  const all = { ...UNKNOWN };
  const keyed = withField(desk.sources, "member", member).map(({ ssrc }) => `${address} ${ssrc}`);
  keyed.forEach((key, place) => addSource(all, stats.sources.get(key), place));
  addStream(all, stats.streams.get(mix));
  for (const { ssrc } of withField(desk.slots, "member", member)) addStream(all, stats.streams.get(ssrc));
  all.look += `${all.isLosingOut ? "o" : ""}${all.isSpeaking ? "v" : ""}`;
  return all;
}
function addSource(all, count, place) {
  const isQuiet = isStill(count);
  if (isQuiet || count.isLossy) all.look += `${isQuiet ? "s" : "l"}${place}`;
  all.isSilent ||= isQuiet;
  if (isQuiet) return;
  all.isLosingIn ||= count.isLossy;
  all.isSpeaking ||= count.sound.isSpeaking;
  all.level = most(all.level, count.sound.level);
  all.lossIn = most(all.lossIn, count.share);
  all.jitter = most(all.jitter, count.jitter_ms);
}
function addStream(all, count) {
  if (!count) return;
  all.isLosingOut ||= count.isLossy;
  all.lossOut = most(all.lossOut, count.share);
  all.trip = most(all.trip, count.round_trip_ms);
}

// The rooms in which a source fell silent or began to lose many packets between two counts, a stream began to lose
// many, or somebody began to speak, or ceased to.
export function turnedRooms(desk, before, after) {
  const turned = desk.members.filter((member) =>
    figuresOf(desk, before, member).look !== figuresOf(desk, after, member).look);
  return new Set(turned.map(({ room }) => room));
}

// An unknown sender, with what a form to add it as a source is filled in with: its SSRC, the kind that its payload type
// hints at, and the member of its address if there is one. One whose SSRC is a source sends from elsewhere.
function strangerOf(desk, { address, ssrc, payload_type: type, packets }) {
  const member = desk.members.find((one) => one.address === address)?.member ?? null;
  const kind = SOUND_TYPES.includes(type) ? "audio" : "video";
  return { address, ssrc, type, packets, member, kind, isElsewhere: sourceOf(desk, ssrc) !== undefined };
}

// The unknown senders, but for those that have become sources meanwhile.
export function strangersIn(stats, desk) {
  const isOf = (ssrc, address) => memberOf(desk, sourceOf(desk, ssrc)?.member)?.address === address;
  const unknown = (stats?.strangers ?? []).filter(({ ssrc, address }) => !isOf(ssrc, address));
  return unknown.map((one) => strangerOf(desk, one));
}

// What brings somebody into a room as one group: a member with numbers of the page's choice, its sources, which are
// what comes from its address already, and a slot if it sees a picture.
export function newcomer(desk, stats, { room, address, sees }) {
  const own = strangersIn(stats, desk).filter((one) => one.address === address && !one.isElsewhere);
  const unused = (least) => {
    const number = free(desk, "ssrc", least);
    return own.some(({ ssrc }) => ssrc === number) ? unused(number + 1) : number;
  };
  const member = free(desk, "member", 10), codec = codecOf(desk, { room, codec: "" });
  const parts = [lines.addMember({ member, room, address, codec, ssrc: unused(9001) }),
    ...own.map(({ ssrc, kind }) => lines.addSource({ ssrc, member, kind }))];
  if (sees) parts.push(lines.addSlot({ ssrc: unused(501), member, index: 0 }));
  return { member, parts };
}
"##;

/// people.js
pub(crate) const PEOPLE_JS: &[u8] = br##"
// Who gave a call, and when. No function touches the page.
import { cut } from "./overview.js";
import { worded } from "./history.js";

// The name of somebody who has said none, how the name of a program begins, and the most octets of a name.
export const NOBODY = "page", PROGRAM = "agent-", LONGEST_PERSON = 64;
export function isProgram(name) { return name.startsWith(PROGRAM); }

// A person's name as the bridge takes it: one word, in which `%` and two digits stand for each octet of UTF-8 that
// isn't a letter, a digit or one of -_.!~*'() (RFC 3986 section 2.1). No person is a program, or nameless by `-`.
export function personWord(name) {
  let word = "";
  for (const letter of cut(name.toWellFormed())) {
    const more = encodeURIComponent(letter);
    if (word.length + more.length > LONGEST_PERSON - 2) break;
    word += more;
  }
  return isProgram(word) || word === "-" ? word.replace("-", "%2D") : word || NOBODY;
}
// Controls, and marks that turn what follows.
const HIDDEN = /[\u0000-\u001f\u007f-\u009f\u200e\u200f\u202a-\u202e\u2066-\u2069]/g;
// The name in such a word, or the word where it is none.
export function personName(word) {
  let name = word;
  try {
    name = decodeURIComponent(word);
  } catch {
    // Another program gave its connection a name with a `%` in it.
  }
  return cut(name.replace(HIDDEN, "")) || word;
}

// The calls in the text of /past.txt by their numbers, each with its moment, its operator, its name and its line. A
// bridge that has no such text has none.
export function callsIn(text) {
  const calls = new Map();
  for (const row of text.split("\n")) {
    const [, no, moment, op, name, line] = /^call ([0-9]+) ([0-9]+) ([0-9]+) (\S+) (.+)$/.exec(row) ?? [];
    const [number, operator] = [Number(no), Number(op)];
    if (line) calls.set(number, { number, moment: Number(moment), operator, name, line });
  }
  return calls;
}

// Who gave a call, in words. A name stands by itself, since it may run from right to left.
export function whoOf({ name = "-", operator }) {
  return name === "-" ? `operator ${operator}` : `\u2068${personName(name)}\u2069`;
}
// When that was: the time of day, and the day too where it wasn't today.
export function timeOf(moment, now) {
  const when = new Date(moment), [day, time] = [when.toDateString(), when.toTimeString().slice(0, 5)];
  return day === new Date(now).toDateString() ? time : `${day.slice(4, 10)} ${time}`;
}
// Another person's call, by which a line wasn't sent, in the answer to that line; or null.
export function newerIn(said) { return said.startsWith("Newer: ") ? [...callsIn(said).values()][0] ?? null : null; }
// Who gave a call, when, and what it did.
export function callerInWords(call, { names, desk, past }, now = Date.now()) {
  return `${timeOf(call.moment, now)} ${whoOf(call)}: ${worded(names, desk, call.line, past?.known)}.`;
}
// Whether a call is another one's: neither this page's, nor by the name that its operator has.
export function isOthers(call, me, mine) { return call !== undefined && !mine.has(call.number) && call.name !== me; }
// Whether a call makes rooms as a restored desk's first group does: with it all of its members go.
export function makesRooms(call) { return call !== undefined && call.line.startsWith("group add-room "); }
"##;

/// news.js
pub(crate) const NEWS_JS: &[u8] = br##"
// What the stream of events says. No function touches the page.
import { callsIn, whoOf } from "./people.js";

// The most calls of the log that a page keeps.
const MOST_LOGGED = 512;

// The text of /desk.txt after an event `desk`: its data has the state before and after, where octets go, how many, and
// those that come in their place. The text as it is where it has that state already, and null where it is another one.
export function editedText(text, told) {
  const [head, ...lines] = told.split("\n"), [before, after, start, removed] = head.split(" ");
  const end = text.lastIndexOf("state "), state = text.slice(end + 6).trimEnd(), from = Number(start);
  if (state === after) return text;
  if (state !== before) return null;
  const desk = text.slice(0, end);
  return `${desk.slice(0, from)}${lines.join("\n")}${desk.slice(from + Number(removed))}state ${after}\n`;
}

// Whether a text of /desk.txt is from before another one of the same run.
export function isOlderText(text, than) {
  const stateOf = (one) => one.slice(one.lastIndexOf("state ") + 6).trimEnd().split("-");
  const [run, number] = stateOf(text), [otherRun, otherNumber] = stateOf(than);
  return run === otherRun && Number(number) < Number(otherNumber);
}

// The calls of the log with those of an event `call`, the last ones of all.
export function withCalls(calls, told) {
  const all = new Map([...calls, ...callsIn(told)]);
  for (const number of all.keys()) {
    if (all.size <= MOST_LOGGED) break;
    all.delete(number);
  }
  return all;
}

// Who held the lease of the desk, by an event `lease`, where it has ended; or null.
export function closedBy(told) { return told.startsWith("closed ") ? told.slice(7) : null; }
// What that means. A fleet takes the rooms of a bridge that it doesn't reach to another one.
const FLEET = "agent-fleet";
export function closedInWords(name) {
  const why = name === "-" ? "nobody holds its lease" : `the lease of ${whoOf({ name })} has ended`;
  const moved = name === FLEET ? " The rooms may be on another bridge by now." : "";
  return `The desk is closed: ${why}. Calls are refused. Sound and pictures go on.${moved}`;
}
"##;

/// plots.js
pub(crate) const PLOTS_JS: &[u8] = br##"
// Two minutes of a member's figures, and the lines that draw them. No function touches the page.
import { figuresOf } from "./stats.js";

// How far back a trace goes, in milliseconds, and the size of a plot in units of its own.
export const TRACED = 120000, PLOT_WIDTH = 120, PLOT_HEIGHT = 20;
// What is traced, each with the lowest value and the least value that reaches the top of its plot.
export const PLOTS = [
  ["level", -60, -10], ["lossIn", 0, 0.1], ["jitter", 0, 60], ["lossOut", 0, 0.1], ["trip", 0, 300],
];

// A trace with one more sample: the moment and the figures of then.
export function traced(trace, at, figures) {
  const kept = trace.filter(([then]) => then > at - TRACED);
  return [...kept, [at, ...PLOTS.map(([name]) => figures[name])]];
}
// The traces of all members, and of no other ones.
export function tracedAll(traces, desk, stats) {
  return new Map(desk.members.map((member) =>
    [member.member, traced(traces.get(member.member) ?? [], stats.at, figuresOf(desk, stats, member))]));
}

// The line of one figure, as a path from the left edge two minutes ago to the right edge now. Where nothing is known
// the line has a gap, and a sample by itself is a dot.
export function plotted(trace, place, now) {
  const [, lowest, least] = PLOTS[place], known = trace.map((sample) => sample[place + 1]);
  const highest = Math.max(least, ...known.filter((value) => value !== null));
  let path = "", isOn = false;
  trace.forEach(([then], at) => {
    const value = known[at], x = PLOT_WIDTH * (1 - (now - then) / TRACED);
    const share = value === null ? 0 : Math.max(0, value - lowest) / (highest - lowest);
    if (value !== null) path += `${isOn ? "L" : "M"}${x.toFixed(1)} ${(PLOT_HEIGHT * (1 - share)).toFixed(1)}`;
    if (value !== null && !isOn) path += "h.1";
    isOn = value !== null;
  });
  return path;
}
"##;

/// rules.js
pub(crate) const RULES_JS: &[u8] = br##"
// The rules of the page: what stays in its place, when a press is meant, and who is in trouble. No function touches the
// page.
import { lines, sourcesOf } from "./lines.js";
import { figuresOf } from "./stats.js";
import { isProgram } from "./people.js";
import { revertedBy, turnedBy } from "./history.js";

// A press is refused for so long after another's change of its object, or after places have changed, in milliseconds.
export const JUST = 300;
// So long after the last news the page is late, and after that gone.
export const LATE = 4000, GONE = 10000;
// For so long rooms by trouble keep their order, and who ceases to fit a filter stays.
export const SETTLED = 5000;

// The objects that a row of the desk is about, as `member 10`.
export function objectsOfRow(row) {
  const [kind, first, second, third] = row.split(" ");
  if (kind === "member") return [`member ${second}`, `room ${third}`];
  if (kind === "source" || kind === "slot") return [`${kind} ${first}`, `member ${second}`];
  if (kind === "mute") return [`source ${first}`];
  if (kind === "sub") return [`slot ${first}`];
  return [kind === "gain" ? `gain ${first} ${second}` : `${kind} ${first}`];
}
// The objects that a line is about. What an undo takes back may be anything; a revert names its call.
const ABOUT = { "add-room": "room", "remove-room": "room", "add-member": "member", "move-member": "member",
  "remove-member": "member", "add-source": "source", "remove-source": "source", "add-slot": "slot",
  "remove-slot": "slot", subscribe: "slot", unsubscribe: "slot", pin: "pin", unpin: "pin", "give-floor": "floor",
  "take-floor": "floor", mute: "source", unmute: "source", undo: "history", redo: "history", revert: "call" };
export function objectsOfLine(line) {
  return line.replace(/^group /, "").split(" / ").map((part) => {
    const [verb, first, second] = part.split(" ");
    if (verb === "set-gain") return `gain ${first} ${second}`;
    return ABOUT[verb] === "history" ? "history" : `${ABOUT[verb] ?? verb} ${first}`;
  });
}

// The objects that others have changed between two versions of the desk, by the rows that went and came. `mine` are the
// versions that this page's calls made, and `sent` those of its lines that may have come meanwhile; `waiting` of these
// have no answer yet.
export function othersObjects(before, after, rows, mine, sent, waiting) {
  let others = 0;
  for (let version = before + 1; version <= after; version += 1) if (!mine.has(version)) others += 1;
  if (others <= waiting) return [];
  const own = new Set(sent.flatMap(objectsOfLine)), moved = new Map(), plain = (row) => row.slice(2);
  // A member's place may shift: then its row goes and comes, and nothing of it has changed.
  const still = (row) => plain(row).replace(/^member [0-9]+ /, "member ");
  for (const row of rows) moved.set(still(row), (moved.get(still(row)) ?? 0) + 1);
  const objects = rows.filter((row) => moved.get(still(row)) === 1).flatMap((row) => objectsOfRow(plain(row)));
  return ["history", ...new Set(objects)].filter((object) => !own.has(object));
}

// Places. A plan says which rooms are drawn, in which order, and which members in each.
const placesOf = (plan) => plan.map(({ room, members }) => `${room} ${members.join()}`);
const keysOf = (plan) => plan.flatMap(({ room, members }) => [`room ${room}`, ...members.map((m) => `${room} ${m}`)]);
// How many changes of place lie between two plans.
export function placeChanges(before, after) {
  const had = new Set(keysOf(before)), has = new Set(keysOf(after));
  const count = [...had].filter((key) => !has.has(key)).length + [...has].filter((key) => !had.has(key)).length;
  return count || Number(placesOf(before).join("/") !== placesOf(after).join("/"));
}
// Things in the places that they had: those that are there still as they are now, and the others with a mark.
export function inOldPlaces(before, now, key) {
  const found = new Map(now.map((one) => [one[key], one]));
  return before.map((one) => found.get(one[key]) ?? { ...one, hasLeft: true });
}

// What Undo takes back and Redo does again, where programs give calls as well. `calls` are those of the log. A person's
// call is one that no program gave.
export function undoOf(past, calls) {
  const over = passedOver(past, calls);
  const one = past.done.findLast(({ number }) => isPersons(calls, number) && !over.has(number));
  if (!one) return null;
  const isNewest = one === past.done[past.done.length - 1];
  return { number: one.number, line: isNewest ? lines.undo(past.version) : lines.revert(one.number) };
}
export function redoOf(past, calls) {
  const last = past.undone[past.undone.length - 1], over = passedOver(past, calls);
  if (last) return { number: last.number, line: lines.redo(past.version) };
  for (const { number } of past.done.filter((one) => isPersons(calls, one.number)).reverse()) {
    if (!over.has(number)) return null;
    const { number: taken, isBack } = over.get(number);
    if (!isBack) return { number: taken, line: lines.revert(number) };
  }
  return null;
}
function isPersons(calls, number) { return !isProgram(calls.get(number)?.name ?? "-"); }
// The reverts that are Undos and Redos: each takes back a person's call, or brings it back, behind which no other
// person's call was in force. By its number, that call and whether it is back.
function passedOver(past, calls) {
  const over = new Map();
  let newest = 0;
  for (const { number, line } of past.done.filter((one) => isPersons(calls, one.number))) {
    const turned = revertedBy(line) === null ? null : turnedBy(past.known, line);
    if (turned && isPersons(calls, turned.number) && newest <= turned.number) over.set(number, turned);
    else newest = number;
  }
  return over;
}

// What troubles a member: nothing comes of a source, many packets are lost on their way to the bridge or from it, or it
// has the floor and is muted.
export function troubleOf(desk, stats, member) {
  const figures = figuresOf(desk, stats, member);
  if (figures.isSilent) return "silent";
  if (figures.isLosingIn) return "losing in";
  if (figures.isLosingOut) return "losing out";
  const isOdd = desk.floors.get(member.room) === member.member && isMuted(desk, member.member);
  return isOdd ? "muted floor" : "";
}
const WEIGHTS = { "": 0, "muted floor": 1, "losing in": 2, "losing out": 2, silent: 2 };
export function isMuted(desk, member) {
  const voices = sourcesOf(desk, member, "audio");
  return voices.length > 0 && voices.every((s) => desk.mutes.has(s.ssrc));
}
// Whether a member is one of those that a number counts. One may be silent with its picture and lose sound.
const COUNTED = { speaking: (one) => one.isSpeaking, silent: (one) => one.isSilent,
  losing: (one) => one.isLosingIn || one.isLosingOut };
export function isCounted(desk, stats, filter, member) {
  return filter === "muted" ? isMuted(desk, member.member) : COUNTED[filter](figuresOf(desk, stats, member));
}
// What is counted of members: those of a room, or of the whole bridge.
export function tallyOf(desk, stats, members) {
  const tally = { members: members.length, speaking: 0, silent: 0, losing: 0, muted: 0, weight: 0 };
  for (const member of members) {
    for (const key of ["speaking", "silent", "losing", "muted"]) {
      if (isCounted(desk, stats, key, member)) tally[key] += 1;
    }
    tally.weight += WEIGHTS[troubleOf(desk, stats, member)];
  }
  return tally;
}

// What the page knows of its link, in words. `quiet` is how long ago the last news came, in milliseconds, `since` when
// that was, and `told` what the program says of its bridge: "", "bridge" or "seats".
export function linkOf(told, quiet) {
  if (told) return told;
  if (quiet > GONE) return "gone";
  return quiet > LATE ? "late" : "live";
}
export function linkInWords(link, quiet, since) {
  if (link === "live") return "Live";
  if (link === "late") return `Late: last news ${Math.floor(quiet / 1000)} s ago`;
  const from = since ? ` since ${since}` : "";
  if (link === "bridge") return `Bridge gone${from} \u2026`;
  if (link === "seats") return `No free seat${from} \u2026`;
  if (link === "gone") return `No news${from || " yet"} \u2026`;
  return "Asking the bridge";
}
"##;

/// history.js
pub(crate) const HISTORY_JS: &[u8] = br##"
// The history of calls, as the bridge tells it. No function touches the page.
import { by } from "./lines.js";
import { labelled, nameOf, sourceName } from "./overview.js";

// The calls in force and those that can be redone, in the order of the text: each with its number, its operator and its
// line. The last one in force is what an undo takes back, and the last undone one what a redo does again. The lines of
// calls by their numbers are kept from the history before, for what its reverts took back is left out.
export function parseHistory(text, before = null) {
  const past = { version: 0, done: [], undone: [], known: new Map() };
  let calls = past.done;
  for (const line of text.split("\n")) {
    if (line === "undone") calls = past.undone;
    else if (line.startsWith("end ")) past.version = Number(line.slice(4));
    else if (line !== "") calls.push(callIn(line));
  }
  past.known = knownLines(past, before?.known ?? new Map());
  return past;
}
function callIn(text) {
  const [number, operator] = text.split(" ", 2);
  return { number: Number(number), operator: Number(operator), line: text.slice(number.length + operator.length + 2) };
}

// The number of the call that a line takes back alone, or null.
export function revertedBy(line) { return /^revert [0-9]+$/.test(line ?? "") ? Number(line.slice(7)) : null; }

// The lines of a history by their numbers, and the earlier ones of calls that its reverts took back. Where a number has
// another line than before, it is another bridge's, and no earlier line counts.
function knownLines(past, before) {
  const calls = [...past.done, ...past.undone], known = new Map(calls.map(({ number, line }) => [number, line]));
  if (calls.some(({ number, line }) => (before.get(number) ?? line) !== line)) return known;
  // What is found here is looked through, too: a revert may have taken a revert back.
  for (const line of known.values()) {
    const number = revertedBy(line);
    if (before.has(number) && !known.has(number)) known.set(number, before.get(number));
  }
  return known;
}

// The call that is out of force or back in it by a revert: the revert of a revert brings its call back.
export function turnedBy(known, line) {
  const number = revertedBy(line), next = revertedBy(known.get(number));
  // A revert names an earlier call, so this ends.
  if (next === null || next >= number) return { number, isBack: false };
  const { number: last, isBack } = turnedBy(known, known.get(number));
  return { number: last, isBack: !isBack };
}

// Which words of a command are a room, a member or a source.
const OBJECTS = { "add-room": "r", "remove-room": "r", "add-member": "mr", "move-member": "mr", "remove-member": "m",
  "add-source": "sm", "remove-source": "s", "add-slot": "-m", subscribe: "-s", pin: "rs", unpin: "r",
  "give-floor": "rm", "take-floor": "r", mute: "s", unmute: "s", "set-gain": "ms" };
const SHORT_NAME = 24, SHORT_WORDS = 32;

// A call's line in which objects have their names: "mute Bob (202)". A name stands by itself, since it may run from
// right to left. A revert says what it did: "reverted mute Bob (202)".
const TURNS = ["reverted", "brought back"], THINGS = ["the revert of", "the return of"];
export function worded(names, desk, line, known = new Map(), [reverted, back] = TURNS) {
  if (revertedBy(line) === null) return namedLine(names, desk, line);
  const { number, isBack } = turnedBy(known, line), last = known.get(number) ?? line;
  const what = revertedBy(last) === null ? namedLine(names, desk, last) : `call ${number}`;
  return `${isBack ? back : reverted} ${what}`;
}
// A call by its number, as something that can be taken back: "mute Bob (202)", "the revert of mute Bob (202)". The
// page may not know its line, since a history leaves out what was reverted.
export function callWords(names, desk, number, known) {
  return known.has(number) ? worded(names, desk, known.get(number), known, THINGS) : `call ${number}`;
}
// The beginning of long words. A name that is cut still stands by itself.
export function begun(words) {
  const letters = [...words], kept = letters.slice(0, SHORT_WORDS).join("");
  const isOpen = kept.lastIndexOf("\u2068") > kept.lastIndexOf("\u2069");
  return letters.length > SHORT_WORDS ? `${kept}${isOpen ? "\u2069" : ""}\u2026` : words;
}
function namedLine(names, desk, line) {
  const group = line.startsWith("group ") ? "group " : "";
  return group + line.slice(group.length).split(" / ").map((part) => namedPart(names, desk, part)).join(" / ");
}
function namedPart(names, desk, part) {
  const [verb, ...words] = part.split(" "), kinds = OBJECTS[verb] ?? "";
  return [verb, ...words.map((word, place) => namedWord(names, desk, kinds[place], word))].join(" ");
}
function namedWord(names, desk, kind, word) {
  const whole = kind === "s" ? sourceName(names, desk, Number(word)) :
    nameOf(names, { r: "room", m: "member" }[kind], Number(word));
  const letters = [...whole];
  const name = letters.length > SHORT_NAME ? `${letters.slice(0, SHORT_NAME).join("")}\u2026` : whole;
  return name ? labelled(`\u2068${name}\u2069`, word) : word;
}

// What leads to the desk right behind a call: the undos that take back the calls after it, or the redos up to it. A
// call that was reverted is undone behind its revert, though the history leaves it out.
export function wayTo(past, number) {
  if (past.done.some((one) => one.number === number)) {
    const numbers = new Set(past.done.flatMap((one) => [one.number, revertedBy(one.line) ?? one.number]));
    const later = [...numbers].filter((one) => one > number).sort((a, b) => b - a);
    return { word: "undo", calls: later.map((one) => ({ number: one })) };
  }
  const undone = past.undone.findIndex((one) => one.number === number);
  return undone < 0 ? null : { word: "redo", calls: past.undone.slice(undone).reverse() };
}
export function wayWords({ word, calls }, isLast) {
  if (isLast) return "An undo takes it back.";
  const count = calls.length, many = count === 1 ? `One ${word} leads` : `${count} ${word}s lead`;
  return `${many} to the desk right behind it: ${calls.map(({ number }) => number).join(", ")}.`;
}

// What a later command lacks without the call that was to be reverted, by the number of its refusal.
const LACKS = { 1: "what it adds would be there already", 2: "no such room", 3: "no such member", 4: "no such source",
  5: "no such slot", 6: "the source would be of the other kind", 7: "they would be in two rooms",
  8: "the SSRC would be used", 12: "the table would be full", 21: "the room would have another rate" };
// Why a revert is refused, in words, by the words of the refusal from its number on; or undefined.
export function againstRevert(seen, [refusal, , ...more]) {
  if (refusal === "23") return "it isn't in force any more";
  if (refusal === "24") return `it lies too far back: over ${more[0]} commands came since`;
  if (refusal === "25") return needing(seen, ...more);
  return refusal === "26" ? elsewhere(seen, ...more) : undefined;
}
// The call that stands in the way of a revert, by the answer to it; or null.
export function callInTheWay(said) {
  const found = /^no [0-9]+ 25 Conflict ([0-9]+) /.exec(said);
  return found && Number(found[1]);
}
function needing({ names, desk, past }, call, part, refusal, name) {
  const made = past?.done.find(({ number }) => number === Number(call)), why = LACKS[refusal] ?? name;
  if (!made) return `call ${call} needs it (${why})`;
  const isGroup = made.line.startsWith("group "), parts = made.line.replace(/^group /, "").split(" / ");
  const words = `${namedLine(names, desk, parts[Number(part)] ?? made.line)}${isGroup ? " in a group" : ""}`;
  return `call ${call}, ${words} by operator ${made.operator}, needs it (${why})`;
}
function elsewhere({ names, desk }, kind, word) {
  if (!desk) return `it would also change whether ${kind} ${word} is there`;
  const what = `${kind} ${namedWord(names, desk, { room: "r", member: "m", source: "s" }[kind], word)}`;
  const rows = { room: desk.rates, member: by(desk.members, kind), source: by(desk.sources, "ssrc"),
    slot: by(desk.slots, "ssrc") }[kind];
  return rows?.has(Number(word)) ? `it would also take ${what} out` : `it would also bring ${what} back`;
}

"##;
