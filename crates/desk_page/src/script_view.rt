//! How the page shows the desk, and what is done at it.
//! `tools/bridge make page` writes this file, from these files of web/:
//! known.js, view.js, rows.js, page.js, taking.js, link.js, stream.js, counts.js, places.js, drawing.js, hands.js.

/// known.js
pub(crate) const KNOWN_JS: &[u8] = br##"
// What the page knows. All files read it, and many change it.
import { NOBODY } from "./people.js";

// The desk and its text, its history, the calls of the log, the names, and what the bridge counts.
export let desk = null, shownText = null, past = null, calls = new Map();
export let names = {}, namesVersion = -1, stats = null;
// The link: when news last came, what the program says of its bridge, and whether the page asks for the desk, or will.
export let lastNews = performance.now(), since = null, told = "", asking = false, timer = null;
// Who is at this page; which member is open, which call of the history is unfolded, which number filters the list, what
// is dragged, and the lines that are collected.
export let me = NOBODY, opened = null, walked = null, filter = "", drag = null, group = [];
// What is folded and picked, the last member in each room, gains that are shown though they are even, sliders at rest
// until their line is sent, and the numbers that forms suggest.
export const folded = new Map(), picked = new Set(), here = new Map();
export const widened = new Set(), resting = new Map(), suggestions = new Map();
// Which control is pressed, the versions that calls of this page made, when others have last changed an object or a
// member, and how long such a member is marked, in milliseconds.
export let pressed = null;
export const mine = new Set(), touchedAt = new Map(), freshAt = new Map(), MARKED = 3000;
// What stands still: when places changed last, and were ordered, and whether something beside the list is held.
export let movedAt = -Infinity, orderedAt = -Infinity, heldAside = false;

// How other files change these: what is imported can't be assigned.
export const set = {
  desk: (it) => (desk = it),
  shownText: (it) => (shownText = it),
  past: (it) => (past = it),
  calls: (it) => (calls = it),
  names: (it) => (names = it),
  namesVersion: (it) => (namesVersion = it),
  stats: (it) => (stats = it),
  lastNews: (it) => (lastNews = it),
  since: (it) => (since = it),
  told: (it) => (told = it),
  asking: (it) => (asking = it),
  timer: (it) => (timer = it),
  me: (it) => (me = it),
  opened: (it) => (opened = it),
  walked: (it) => (walked = it),
  filter: (it) => (filter = it),
  drag: (it) => (drag = it),
  group: (it) => (group = it),
  pressed: (it) => (pressed = it),
  movedAt: (it) => (movedAt = it),
  orderedAt: (it) => (orderedAt = it),
  heldAside: (it) => (heldAside = it),
};
"##;

/// view.js
pub(crate) const VIEW_JS: &[u8] = br##"
// Drawing. What is drawn is changed in place, so that focus, scrolling and what is typed stay.
import { MUSIC, lines } from "./lines.js";
import { labelled } from "./overview.js";
import { gainInWords } from "./levels.js";
import { PLOT_HEIGHT, PLOT_WIDTH } from "./plots.js";
import { wayWords } from "./history.js";
import { fate } from "./rows.js";

export function at(id) { return document.getElementById(id); }

// An element with attributes, and children behind one another. `line` is the line that a click sends.
export function el(tag, props, ...children) {
  const node = document.createElement(tag);
  for (const [name, value] of Object.entries(props ?? {})) {
    if (value === null || value === undefined || value === false) continue;
    node.setAttribute(name, value === true ? "" : value);
  }
  node.append(...children.flat().filter((child) => child !== null && child !== undefined && child !== ""));
  return node;
}
export const soft = (...text) => el("span", { class: "soft" }, ...text);
export const code = (text) => el("code", {}, text);
// A name may run from right to left, so that it stands by itself.
export const bdi = (text) => el("bdi", {}, text);

// The controls that were pressed and have no answer yet, by their keys: each with its line, and the version as which it
// was accepted, or 0.
export const waits = new Map();
const busy = (key) => (waits.has(key) ? "true" : null);

// A button that sends a line, which it shows when it is pointed at or reached by Tab. `what` tells its object. A button
// that has another line after it was pressed keeps its key.
function sends(text, line, what, kind = "", key = line) {
  return el("button", { type: "button", class: `small ${kind}`, title: line, "data-key": key, "data-line": line,
    "aria-label": `${text} ${what}`, "aria-busy": busy(key) }, text);
}
// A button that the page acts on itself.
export function does(text, act, of, what, more = {}) {
  return el("button", { type: "button", class: "small", "data-key": `${act} ${of}`, "data-act": act, "data-of": of,
    "aria-label": `${text} ${what}`, "aria-busy": busy(`${act} ${of}`), ...more }, text);
}
// A choice that sends the line `PREFIX CHOSEN`, or hands what is chosen to an act. It is filled once it is opened.
export function chooses(text, what, key, more) {
  return el("select", { class: "small", "aria-label": `${text} ${what}`, "data-key": key, "data-choice": key, ...more },
    el("option", { value: "" }, text));
}

// The sliders that an operator holds, or moved by a key just now, by their keys: the gain that each had then, and the
// one that was sent. One that another operator has changed meanwhile is lost, and follows the desk.
export const touched = new Map();
const isBusy = (node) => (node.type === "range" ? touched.get(node.dataset.key)?.isLost === false :
  node === document.activeElement);

// Makes a node look like another one, and keeps all of it that is so already.
export function morph(node, next) {
  if (node.nodeType === Node.TEXT_NODE) {
    if (node.data !== next.data) node.data = next.data;
    return;
  }
  for (const { name } of [...node.attributes]) if (!next.hasAttribute(name)) node.removeAttribute(name);
  for (const { name, value } of next.attributes) if (node.getAttribute(name) !== value) node.setAttribute(name, value);
  if (node.tagName === "INPUT") {
    if (!isBusy(node) && node.type === "range") node.value = next.value;
    if (node.type === "checkbox") node.checked = next.checked;
  }
  // What a list has drawn into a node is the list's.
  if (!node.drawn && (node.tagName !== "SELECT" || !isBusy(node))) morphChildren(node, [...next.childNodes]);
}
const keyOf = (node) => node.dataset?.key ?? node.id ?? "";
const isLike = (node, next) => node.nodeName === next.nodeName && keyOf(node) === keyOf(next);
export function morphChildren(node, nexts) {
  const keys = new Set(nexts.map(keyOf).filter((key) => key));
  for (const child of [...node.childNodes]) if (keyOf(child) && !keys.has(keyOf(child))) child.remove();
  let place = node.firstChild;
  for (const next of nexts) {
    if (place && isLike(place, next)) {
      morph(place, next);
      place = place.nextSibling;
    } else {
      node.insertBefore(next, place);
      if (place && !keyOf(place) && !keyOf(next)) {
        const gone = place;
        place = place.nextSibling;
        gone.remove();
      }
    }
  }
  while (place) {
    const gone = place;
    place = place.nextSibling;
    gone.remove();
  }
}

// Draws a list into a node: each item with its key and a model. An item whose model is as before isn't drawn again, nor
// is one that is known to be kept.
export function drawList(node, items, draw) {
  const known = node.drawn ?? new Map(), drawn = new Map();
  const keys = new Set(items.map((item) => item.key));
  for (const [key, entry] of known) if (!keys.has(key)) entry.node.remove();
  let place = node.firstElementChild;
  for (const item of items) {
    let entry = known.get(item.key);
    const look = item.isKept && entry ? entry.look : JSON.stringify(item.model);
    if (!entry) entry = { node: draw(item), look, figures: item.figures };
    else if (entry.look !== look) {
      morph(entry.node, draw(item));
      Object.assign(entry, { look, figures: item.figures });
    }
    if (item.model) entry.model = item.model;
    if (entry.node === place) place = place.nextElementSibling;
    else node.insertBefore(entry.node, place);
    drawn.set(item.key, entry);
  }
  node.drawn = drawn;
  return drawn;
}

// A name and the number behind it, or what it is and the number.
function titled(name, kind, number) {
  return name ? [bdi(name), soft(` ${kind} ${number}`)] : [`${kind} ${number}`];
}
export const spoken = (name, kind, number) => (name ? `${name} ${kind} ${number}` : `${kind} ${number}`);

// A room of the overview: its head, and a list for its members. All of the head has its place, whatever is said there.
function roomHead(model) {
  const { room, name, isFolded, floor, pin, left, tally } = model, what = spoken(name, "room", room);
  const off = left ? { "aria-disabled": "true" } : {};
  const many = `${model.members} member${model.members === 1 ? "" : "s"}`;
  const kinds = [["silent", "warn"], ["losing", "bad"], ["speaking", "good"], ["muted", ""]];
  const counts = kinds.flatMap(([key, kind]) => (tally[key] ?
    [", ", el("b", { class: kind }, `${tally[key]} ${key}`)] : []));
  return el("div", { class: `head${model.odd ? " odd" : ""}${left ? " left" : ""}` },
    el("button", { type: "button", class: "fold", "data-act": "fold", "data-of": room, "data-key": `fold ${room}`,
      "aria-expanded": String(!isFolded), "aria-label": `${isFolded ? "Unfold" : "Fold"} ${what}`, ...off },
      isFolded ? "\u25b8" : "\u25be"),
    el("h3", { id: `room-${room}` }, ...titled(name, "room", room)),
    el("span", { class: "soft count" }, model.music ? el("span", { class: "rate" }, `${MUSIC} Hz`) : "",
      model.music ? ", " : "", left || many, ...(left ? [] : counts)),
    el("span", { class: "held" },
      pin ? el("span", { class: "tag", title: `${pin.label} is pinned` }, bdi(pin.label), " is pinned") : "",
      pin && !left ? sends("Unpin", lines.unpin(room), `${pin.label} in ${what}`) : ""),
    el("span", { class: "held" },
      floor ? el("span", { class: `tag${model.odd ? " bad" : ""}`, title: `floor: ${floor.label}` }, "floor: ",
        bdi(floor.label), model.odd ? ", muted" : "") : "",
      floor && !left ? sends("Take floor", lines.takeFloor(room), `from ${floor.label} in ${what}`) : ""),
    does("Name", "name", `room ${room}`, what, { class: "small quiet", ...off }),
    does("Remove", "remove-room", room, what,
      { class: "small danger quiet", title: lines.removeRoom(room), ...off }));
}
export function roomCard({ model }) {
  const { room, name, isFolded, isEmpty } = model;
  return el("section", { class: "room", "data-room": room, "data-key": `room ${room}`,
    "aria-labelledby": `room-${room}` }, roomHead(model),
    el("div", { class: "members", role: "list", "data-key": `members ${room}`, hidden: isFolded && isEmpty,
      "aria-label": `Members of ${spoken(name, "room", room)}` }));
}

// The line of a figure over two minutes. Its words are the figure's own.
const DRAWN = "http://www.w3.org/2000/svg";
function plotOf(path) {
  const plot = document.createElementNS(DRAWN, "svg"), line = document.createElementNS(DRAWN, "path");
  for (const [name, value] of [["viewBox", `0 0 ${PLOT_WIDTH} ${PLOT_HEIGHT}`], ["preserveAspectRatio", "none"],
    ["class", "plot"], ["aria-hidden", "true"]]) plot.setAttribute(name, value);
  line.setAttribute("d", path);
  plot.append(line);
  return plot;
}

// The panel of one member. Each thing has its buttons at the right, in places of their own.
function gainRow(member, who, { ssrc, gain, label, hasLeft }) {
  const line = lines.setGain(member, ssrc, ""), off = hasLeft ? { disabled: true } : {};
  return el("div", { class: `row slider${hasLeft ? " left" : ""}`, "data-key": `gain row ${ssrc}` },
    el("span", { class: "what" }, bdi(label), soft(` ${gainInWords(gain)}`)),
    el("input", { type: "range", min: 0, max: 1024, step: 32, value: gain, "data-key": `gain ${member} ${ssrc}`,
      "data-gain": line, "aria-label": `Gain of ${label} for ${who}`, "aria-valuetext": gainInWords(gain),
      title: `${line}${gain}`, ...off }),
    sends("Reset", lines.setGain(member, ssrc, 256), `the gain of ${label} for ${who}`));
}
function sourceRow(room, source) {
  const { ssrc, kind, muted, name, isPinned, count, hasLeft } = source;
  const what = `${kind} ${labelled(name, ssrc)}`, isVideo = kind === "video";
  const pin = isPinned ? sends("Unpin", lines.unpin(room), what, "", `pin-of ${ssrc}`) :
    sends("Pin", lines.pin(room, ssrc), what, "", `pin-of ${ssrc}`);
  return el("div", { class: `row${hasLeft ? " left" : ""}`, "data-key": `source row ${ssrc}` },
    el("span", { title: what, class: `what source${muted ? " muted" : ""}${fate(source).mark}`, "data-source": ssrc,
      draggable: isVideo && !hasLeft ? "true" : null }, `${kind} `, bdi(labelled(name, ssrc))),
    el("span", { class: "acts" },
      muted ? sends("Unmute", lines.unmute(ssrc), what, "", `mute-of ${ssrc}`) :
        sends("Mute", lines.mute(ssrc), what, "", `mute-of ${ssrc}`),
      isVideo ? pin : "",
      does("Name", "name", `source ${ssrc}`, what),
      sends("Remove", lines.removeSource(ssrc), what, "danger")),
    count ? el("span", { class: "soft counted" }, count) : "");
}
function slotRow({ slot, index, source, label, by: rule, why, isSubscribed, hasLeft, count }) {
  const word = { sub: "subscribed", pin: "by the pin", floor: "by the floor" }[rule];
  return el("div", { class: `row slot${hasLeft ? " left" : ""}`, "data-slot": slot, "data-key": `slot row ${slot}` },
    el("span", { class: "what" }, `slot ${index} `, soft(`(${slot}): `),
      ...(source === null ? [soft(`nothing, ${why}`)] : [bdi(label), soft(` ${word}`)])),
    el("span", { class: "acts" },
      isSubscribed ? sends("Unsubscribe", lines.unsubscribe(slot), `slot ${slot}`) : "",
      chooses("Subscribe", `slot ${slot}`, `subscribe ${slot}`),
      sends("Remove", lines.removeSlot(slot), `slot ${slot}`, "danger")),
    count ? el("span", { class: "soft counted" }, count) : "");
}
export function detailPanel(model) {
  const { member, name, room, roomLabel, left } = model, who = spoken(name, "member", member);
  const part = (title, rows, none) => [el("h3", { "data-key": title }, title), ...(rows.length ? rows : [soft(none)])];
  return el("section", { id: "detail", class: left ? "left" : null, "aria-labelledby": "detail-title",
    "data-member-open": member },
    el("div", { class: "title" }, el("h2", { id: "detail-title" }, ...titled(name, "member", member)),
      does("Name", "name", `member ${member}`, who), does("Close", "close", member, who)),
    el("div", { class: "soft address" }, "in ", bdi(roomLabel), `, ${model.address} ${model.codec}, mix ${model.mix}`,
      left ? `, ${left}` : ""),
    el("p", { class: "soft told", title: model.told }, model.told),
    el("dl", { class: "figures" }, ...model.figures.flatMap(([what, text, kind, title, path]) =>
      [el("dt", {}, what), el("dd", { class: kind || null, title: title || null }, text, plotOf(path))])),
    el("div", { class: "acts" },
      model.floor ? sends("Take floor", lines.takeFloor(room), `from ${who}`, "", `floor-of ${member}`) :
        sends("Give floor", lines.giveFloor(room, member), `to ${who}`, "", `floor-of ${member}`),
      chooses("Move to room", who, `move-member ${member}`),
      model.others ? does("Mute all others", "mute-others", member, `of the room of ${who}`) : "",
      sends("Remove", lines.removeMember(member), who, "danger")),
    ...part("Sends", model.sources.map((s) => sourceRow(room, s)), "nothing"),
    ...part("Sees", model.slots.map(slotRow), "it has no slot"),
    ...part("Hears", model.gains.map((g) => gainRow(member, who, g)), "all at their own level"),
    model.mixed ? el("div", { class: "soft counted" }, `its mix: ${model.mixed}`) : "",
    model.hears ? chooses("Set gain of", `for ${who}`, `gain-of ${member}`) : "");
}

// An unknown sender, and a button that fills in the form to add it.
export function strangerItem({ model: { address, ssrc, type, packets, member, isElsewhere, hasLeft } }) {
  const whose = member === null ? "no member has this address" : `the address of member ${member}`;
  const known = isElsewhere ? `source ${ssrc} is declared at another address` : whose;
  return el("li", { class: hasLeft ? "left" : null }, `${address} `,
    soft(`SSRC ${ssrc}, type ${type}, ${packets} packets, ${known}`), " ",
    isElsewhere || hasLeft ? "" : does("Add as a source", "take-stranger", ssrc, `${ssrc} from ${address}`));
}

// A call of the history, and below the one that is clicked how it is taken back alone, and what leads to it.
export function callItem({ model: { number, when, who, text, isUndone, isWalked, isOnWay, way, revert, hasLeft } }) {
  return el("li", { class: `${isUndone ? "undone" : ""}${isOnWay ? " way" : ""}${hasLeft ? " left" : ""}` },
    el("button", { type: "button", class: "call", "data-act": "walk", "data-of": number, "data-key": `walk ${number}`,
      "aria-label": `${text} version ${number}`, "aria-expanded": String(isWalked) }, code(text)),
    soft(`${isUndone ? "undone, " : ""}${when}${who}, version ${number}`),
    isWalked ? el("div", { class: "row" }, revert ? revertButton(number, who, revert) : "",
      el("span", { class: "soft grow" }, way.text),
      way.count ? does(way.label, "go", number, `to the desk behind version ${number}`) : "") : "");
}
// Takes one call back, and disturbs nobody. Of a long call the beginning is shown, and whose it is.
function revertButton(number, who, what) {
  const line = lines.revert(number), whose = `, by ${who}`;
  return el("button", { type: "button", class: "small revert", title: line, "data-key": line, "data-line": line,
    "data-act": "revert", "data-of": number, "aria-label": `Revert: ${what}${whose}, version ${number}`,
    "aria-busy": busy(line) }, el("span", {}, `Revert: ${what}`), whose);
}
export function wayOf(way) {
  const count = way.calls.length, word = way.word === "undo" ? "Undo" : "Redo";
  return { text: wayWords(way, count === 0), count, label: count > 1 ? `${word} these ${count}` : word };
}
"##;

/// rows.js
pub(crate) const ROWS_JS: &[u8] = br##"
// A member's row of the overview: its state, its name, its figures, what it sees and sends, and its mute.
import { memberOf } from "./lines.js";
import { labelled } from "./overview.js";
import { LEAST_LEVEL, levelInWords, spanInWords } from "./levels.js";
import { figuresOf } from "./stats.js";
import { desk, stats } from "./known.js";
import { at, bdi, does, el, soft, spoken } from "./view.js";

// What stands out of how a source's packets come: a class, and words.
export function fate({ isSilent: silent, isLossy: lossy }) {
  if (silent) return { mark: " silent", words: "no packet comes" };
  return lossy ? { mark: " lossy", words: "over 2 percent of the packets are lost" } : { mark: "", words: null };
}
// A member's state: a sign, a class and words.
export const STATES = { silent: ["\u2716", "warn", "silent: no packet comes"],
  "losing in": ["\u26a0", "bad", "losing over 2 percent of its packets"],
  "losing out": ["\u26a0", "bad", "losing over 2 percent of what it is sent"],
  "muted floor": ["\u2298", "bad", "has the floor and is muted"],
  muted: ["\u2298", "", "muted"], speaking: ["\u25cf", "good", "speaking"], "": ["", "", ""] };
function stateOf({ trouble, muted }, { isSpeaking }) {
  return STATES[trouble || (muted ? "muted" : isSpeaking ? "speaking" : "")];
}

// Figures in the words of a cell. From these on a jitter and a round trip stand out, in milliseconds.
const SHAKY = 30, FAR = 250;
const percent = (share) => (share === null ? "\u2013" : share < 0.0005 ? "0" : (100 * share).toFixed(1));
const whole = (ms) => (ms === null ? "\u2013" : String(ms));
export function cellsOf({ lossIn, isLosingIn, jitter, lossOut, isLosingOut, trip }) {
  return [["in", percent(lossIn), isLosingIn ? " bad" : ""], ["jitter", whole(jitter), jitter >= SHAKY ? " warn" : ""],
    ["out", percent(lossOut), isLosingOut ? " bad" : ""], ["trip", whole(trip), trip >= FAR ? " warn" : ""]];
}
// The same for a reader, without what isn't known.
function figuresInWords({ lossIn, jitter, lossOut, trip }) {
  const all = [["loss in", lossIn, `${percent(lossIn)} percent`], ["jitter", jitter, `${jitter} ms`],
    ["loss out", lossOut, `${percent(lossOut)} percent`], ["round trip", trip, `${trip} ms`]];
  return all.filter(([, value]) => value !== null).map(([what, , text]) => `${what} ${text}`).join(", ");
}

// A meter has ten steps, from -60 dBov on.
const LOWEST = -60, STEP = 5, STEPS = 10;
const stepOf = (level) => Math.min(STEPS, Math.max(0, Math.round((level - LOWEST) / STEP)));

// What changes in a row at each count, in the order of its cells: of each its class, its text and its attributes.
function figureCells(model, figures) {
  const [sign, kind, words] = stateOf(model, figures), { level, isSpeaking } = figures;
  const lookOf = { "data-step": level === null ? null : String(stepOf(level)),
    "aria-valuenow": String(level === null ? LEAST_LEVEL : Math.round(level)),
    "aria-valuetext": levelInWords(level, isSpeaking, model.muted) };
  return [[`state ${kind}`, sign, { title: words || null }], ["level", level === null ? "\u2013" : "", lookOf],
    ...cellsOf(figures).map(([name, text, stands]) => [`figure ${name}${stands}`, text, {}]),
    ["spoken", figuresInWords(figures), {}]];
}
const FIGURED = [0, 3, 4, 5, 6, 7, 8];
// Shows the figures of a row that is drawn, where they have changed.
function showFigures(row, model, figures) {
  const cells = figureCells(model, figures);
  cells.forEach(([kind, text, more], place) => {
    const node = row.children[FIGURED[place]];
    if (node.className !== kind) node.className = kind;
    if (node.textContent !== text) node.textContent = text;
    for (const [name, value] of Object.entries(more)) {
      if (value === null) node.removeAttribute(name);
      else if (node.getAttribute(name) !== value) node.setAttribute(name, value);
    }
  });
  row.classList.toggle("speaks", figures.isSpeaking);
}
// Whether figures look as others in a row.
const dbov = ({ level }) => (level === null ? null : Math.round(level));
const areAlike = (a, b) => a.lossIn === b.lossIn && a.jitter === b.jitter && a.lossOut === b.lossOut &&
  a.trip === b.trip && a.look === b.look && dbov(a) === dbov(b);
// Shows the figures of all rows that are drawn, where they have changed.
export function drawFigures() {
  for (const { node: room } of at("board").drawn?.values() ?? []) {
    for (const [number, entry] of room.lastElementChild.drawn ?? []) {
      const member = entry.model.left ? undefined : memberOf(desk, number);
      const now = member && figuresOf(desk, stats, member);
      if (member && !areAlike(entry.figures, now)) {
        showFigures(entry.node, entry.model, now);
        entry.figures = now;
      }
    }
  }
  const text = spanInWords(stats?.span ?? null);
  if (at("span").textContent !== text) at("span").textContent = text;
}

// What a member sends. A picture can be dragged to a slot.
function sentCell({ sends: sources, left }) {
  const sent = sources.flatMap((s, place) => [place ? ", " : null,
    el("span", { class: `source${s.muted ? " muted" : ""}${fate(s).mark}`,
      title: [`${s.kind} ${labelled(s.name, s.ssrc)}`, fate(s).words].filter(Boolean).join(": "),
      draggable: s.kind === "video" && !left ? "true" : null, "data-source": s.ssrc }, s.kind)]);
  return el("span", { class: "sends soft" }, ...(sent.length ? sent : ["sends nothing"]));
}
function seenCell({ sees, left }) {
  const names = sees.flatMap((s, place) => [place ? ", " : null,
    s.source === null ? "nothing" : bdi(s.name || String(s.source))]);
  const title = sees.map((s) => (s.source === null ? s.why : s.label)).join(", ");
  return el("span", { class: "sees soft", title: left ? null : title || null },
    ...(left ? [left] : sees.length ? [el("span", { class: "spoken" }, "sees "), ...names] : []));
}

// A member's line of the overview. One that has left stays in its place as long as places are held.
export function memberRow({ model, room, figures }) {
  const { member, name, floor, muted, odd, hasAudio, isOpen, isChosen, isHere, trouble, left, isFresh } = model;
  const who = spoken(name, "member", member), words = STATES[trouble][2], off = left ? { "aria-disabled": "true" } : {};
  const short = name ? [bdi(name), soft(` ${member}`)] : [`member ${member}`];
  const looks = [odd && " odd", trouble && " trouble", trouble === "losing out" && " loses-out", isOpen && " open",
    left && " left", isFresh && " fresh", muted && " quiet", figures.isSpeaking && " speaks"];
  const [state, level, ...others] = figureCells(model, figures).map(([kind, text, more]) =>
    el("span", { class: kind, ...more, "aria-hidden": kind.startsWith("level") || kind === "spoken" ? null : "true",
      ...(kind === "level" ? { role: "meter", "aria-label": `Level of ${who}`, "aria-valuemin": LEAST_LEVEL,
        "aria-valuemax": 0 } : {}) }, text));
  return el("div", { class: `member${looks.filter(Boolean).join("")}`, role: "listitem",
    draggable: left ? null : "true", "data-member": member, "data-room-of": room, "data-key": `member ${member}` },
    state,
    el("label", { class: "pick" }, el("input", { type: "checkbox", tabindex: -1, "data-select": member, ...off,
      checked: isChosen, "aria-label": `Select ${who}` })),
    el("span", { class: "named" },
      el("button", { type: "button", class: "who", tabindex: isHere ? 0 : -1, "data-act": "open", "data-of": member,
        "data-key": `open ${member}`, "aria-expanded": String(isOpen), ...off,
        "aria-label": `Open ${name ? `${name} ${member}` : who}${words && `, ${words}`}${left ? `, ${left}` : ""}` },
        ...short),
      floor ? el("span", { class: `tag${odd ? " bad" : ""}`, title: odd ? "floor, muted" : null }, "floor") : ""),
    level, ...others, seenCell(model), sentCell(model),
    hasAudio ? does(muted ? "Unmute" : "Mute", "toggle", member, who,
      { class: `small${muted ? " danger" : ""}`, tabindex: -1, "aria-keyshortcuts": "m", ...off }) : el("span", {}));
}
"##;

/// page.js
pub(crate) const PAGE_JS: &[u8] = br##"
// What goes out: calls, names and questions; and what clicks do.
import { heard, lines, memberOf, membersIn, nameRefusal, replyInWords, roomsFor, videosFor,
  withField } from "./lines.js";
import { LONGEST_NAME, MOST_PARTS, goesAlong, grouped, labelled, movedAll, nameOf, othersMuted, parseNames, renamed,
  sourceName, toggled, voicesOf } from "./overview.js";
import { groupsIn, keptText } from "./kept.js";
import { newerIn } from "./people.js";
import { JUST, objectsOfLine } from "./rules.js";
import { begun, callInTheWay, callWords, wayTo } from "./history.js";
import { desk, filter, folded, group, here, mine, names, namesVersion, opened, past, picked, pressed, set, touchedAt,
  walked, widened } from "./known.js";
import { at, code, el, spoken, waits } from "./view.js";
import { goes, sendsAfter, takes } from "./taking.js";
import { ANEW, PATIENCE, get, isGone, post, show } from "./link.js";
import { isFollowed } from "./stream.js";
import { fillSource } from "./counts.js";
import { lastFit } from "./places.js";
import { render, renderHistory } from "./drawing.js";

// After so many milliseconds without an answer that is said, and a success fades.
const SLOW = 1000, FADES = 5000;
let fading = null, newsFading = null;

// What became of the last press. A success fades, a refusal stays until it is closed. Where a call of the history is
// why, a button leads to it.
export function notice(text, good, why = null) {
  at("notice").textContent = at("notice").title = text;
  at("notice").className = good ? "good" : "";
  at("notice").hidden = at("close-notice").hidden = false;
  at("show-call").hidden = !past?.done.some(({ number }) => number === why);
  at("show-call").dataset.of = why;
  at("show-call").textContent = `Show call ${why}`;
  clearTimeout(fading);
  if (good) fading = setTimeout(closeNotice, FADES);
}
export function closeNotice() { at("notice").hidden = at("close-notice").hidden = at("show-call").hidden = true; }

// What others did.
export function tellNews(text) {
  at("news").textContent = at("news").title = text;
  clearTimeout(newsFading);
  newsFading = setTimeout(() => { at("news").textContent = at("news").title = ""; }, 2 * FADES);
}

// Why a line isn't sent just now, in words, or nothing.
export function whyNot(line, key) {
  if (isGone()) return `${at("status").textContent} Nothing is sent until it is back.`;
  if (key && waits.has(key)) return "The press before has no answer yet.";
  const just = performance.now() - JUST, object = objectsOfLine(line).find((one) => touchedAt.get(one) > just);
  return object ? "Another operator changed that just now. Look, and press again." : "";
}

// A control waits until its answer came, and the desk of that version.
function waitsFor(key, line) {
  waits.set(key, { line, version: 0 });
  showWaits();
}
function answered(key, version) {
  if (version > (desk?.version ?? version) && waits.has(key)) waits.get(key).version = version;
  else waits.delete(key);
  showWaits();
}
export function showWaits() {
  for (const node of document.querySelectorAll("[data-key][aria-busy]")) {
    if (!waits.has(node.dataset.key)) node.removeAttribute("aria-busy");
  }
  for (const key of waits.keys()) {
    const nodes = document.querySelectorAll(`[data-key="${CSS.escape(key)}"]`);
    for (const node of nodes) node.setAttribute("aria-busy", "true");
  }
}

// Sends a line once, unless there is a reason not to, which is told. The version as which it is accepted, or 0.
// Whatever comes of it, the desk is shown again; the line is never sent again by itself. `saw` is the version of the
// desk that the person saw.
export async function call(line, words = line, key = pressed, saw = desk?.version) {
  const why = whyNot(line, key);
  if (why) {
    notice(`${words}: not sent. ${why}`);
    return 0;
  }
  if (at("collect").checked && !/^(undo|redo|revert|group) /.test(line)) return collect(line);
  const control = key ?? `line ${line} ${performance.now()}`;
  waitsFor(control, line);
  const slow = setTimeout(() => notice(`${words}: sent, no answer yet.`), SLOW);
  const { version, other } = await sent(line, words, saw);
  clearTimeout(slow);
  answered(control, version);
  if (!isFollowed()) show();
  return other && !at("ask").open ? sendsAfter(other, line, words, key) : version;
}
// The version as which a line is accepted, or 0; and another person's call that came first, if one did.
async function sent(line, words, saw) {
  try {
    const reply = await post("/call", line, saw), seen = { names, desk, past };
    const said = (await reply.text()).trim(), { good, text } = replyInWords(reply.status, said, seen);
    const version = good ? Number(said.split(" ")[1]) : 0;
    if (version) mine.add(version);
    notice(said.startsWith("NoToken") ? `${words}: ${ANEW}` : `${words}: ${text}`, good, callInTheWay(said));
    return { version, other: newerIn(said) };
  } catch {
    notice(`${words}: no answer came. It may have been done: look at the desk before you press again.`);
    return { version: 0, other: null };
  }
}

// Hands the desk to the browser as a file.
function save() {
  const href = URL.createObjectURL(new Blob([keptText(desk)], { type: "text/plain" }));
  el("a", { href, download: "desk.txt" }).click();
  setTimeout(() => URL.revokeObjectURL(href), PATIENCE);
  notice(`The desk is saved. ${RESTORED}`, true);
}

// Makes a desk again from such a file: all of it or nothing.
const RESTORED = "Where it is restored streams begin anew, with FIRST_SEQ 1,000 further on.";
export async function restore(text) {
  const groups = groupsIn(text), what = "Restore";
  if (!groups) return notice(`${what}: that is no saved desk, or part of it is missing. Nothing was sent.`);
  if (desk.rows.length > 0) return notice(`${what}: the desk has rooms. Remove them first. Nothing was sent.`);
  const versions = [];
  for (const line of groups) {
    const version = await call(line, `${what}, group ${versions.length + 1} of ${groups.length}`);
    if (!version) return takesBack(versions);
    versions.push(version);
  }
  return notice(`${what}: ${groups.length} groups were accepted. ${RESTORED}`, true);
}
async function takesBack(versions) {
  const why = at("notice").textContent;
  let version = versions[versions.length - 1] ?? null;
  for (let left = versions.length; left > 0 && version; left -= 1) version = await call(`undo ${version}`);
  notice(version === 0 ? `${why} What was restored before stays.` : `${why} Nothing stays.`);
}

// Sends commands as one call.
export function callAll(parts, what) {
  const count = parts.length;
  if (count > MOST_PARTS) return notice(`${what}: that takes ${count} commands. A group has ${MOST_PARTS} at most.`);
  if (count > 0) return call(grouped(parts), count > 1 ? `${what} (${count} commands as one)` : parts[0]);
  return notice(`${what}: nothing to do.`);
}

function collect(line) { group.push(line); showGroup(); return 0; }

export function showGroup() {
  at("collected").replaceChildren(...group.map((line) => el("li", {}, code(line))));
  at("collected").hidden = at("group-buttons").hidden = group.length === 0;
}

// Names, as the page's program keeps them.
export async function takeNames() {
  const reply = await get("/names");
  document.body.classList.toggle("nameless", reply.status === 404);
  if (!reply.ok) return false;
  const told = parseNames(await reply.text());
  set.names(told.names);
  set.namesVersion(told.version);
  return true;
}

// Names a thing for all. Where another browser has named something meanwhile, its names are taken first.
export async function rename(kind, number, name) {
  const what = `the name of ${kind} ${number}`;
  for (let turn = 0; turn < 8; turn += 1) {
    const body = `names ${namesVersion}\n${JSON.stringify(renamed(names, kind, number, name))}`;
    try {
      const reply = await post("/names", body);
      const said = (await reply.text()).trim();
      if (said.startsWith("ok ")) {
        notice(`${what}: kept`, true);
        await takeNames();
        return render();
      }
      if (said.startsWith("NoToken")) return notice(`${what}: ${ANEW}`);
      if (!/^no [0-9]+ Newer/.test(said)) return notice(`${what}: ${nameRefusal(reply.status, said)}`);
      await takeNames();
    } catch {
      return notice(`${what}: no answer came.`);
    }
  }
  return notice(`${what}: others name things all the time; try again.`);
}

// Asks a question, with a field for a text where one is given. The text, or null.
export function question(title, text, yes, value = null) {
  at("ask-title").textContent = title;
  at("ask-text").textContent = text;
  at("ask-yes").textContent = yes;
  at("ask-label").hidden = value === null;
  at("ask-input").value = value ?? "";
  at("ask").returnValue = "";
  at("ask").showModal();
  if (value === null) at("ask-no").focus();
  return new Promise((resolve) => {
    at("ask").onclose = () => resolve(at("ask").returnValue === "yes" ? at("ask-input").value : null);
  });
}

// A call of the history as something that is taken back or done again.
export const saidOf = (number) => callWords(names, desk, number, past?.known ?? new Map());
// Unfolds a call of the history, and goes there.
function showCall(number) {
  set.walked(number);
  renderHistory();
  const node = at("calls").querySelector(`[data-key="walk ${number}"]`);
  node?.scrollIntoView({ block: "nearest" });
  node?.focus();
}

const pickedVoices = (muted) => voicesOf(desk, [...picked], muted);
export const sourceLabel = (ssrc) => labelled(sourceName(names, desk, ssrc), ssrc);

// What clicks do, by their `data-act`. The page asks before a room goes that has more members than these few.
const FEW_MEMBERS = 4;
export const acts = {
  open: (of) => {
    set.opened(opened === Number(of) ? null : Number(of));
    setHere(Number(of));
    render();
  },
  close: () => { set.opened(null); render(); },
  "take-stranger": (of) => fillSource(Number(of)),
  walk: (of) => { set.walked(walked === Number(of) ? null : Number(of)); renderHistory(); },
  "show-call": (of) => showCall(Number(of)),
  go: (of) => { const way = past && wayTo(past, Number(of)); if (way) goes(way); },
  fold: (of) => { folded.set(Number(of), !isFolded(Number(of))); render(null, true, true); },
  filter: (of) => { set.filter(filter === of ? "" : of); lastFit.clear(); render(null, true, true); },
  unknown: () => {
    at("unknown").scrollIntoView({ block: "nearest" });
    at("strangers").querySelector("button")?.focus();
  },
  toggle: (of) => callAll(toggled(desk, [Number(of)]), `mute of member ${of}`),
  "mute-others": (of) => callAll(othersMuted(desk, Number(of)), `mute all but member ${of}`),
  "mute-chosen": () => callAll(pickedVoices(false).map((s) => lines.mute(s.ssrc)), "mute the selected members"),
  "unmute-chosen": () => callAll(pickedVoices(true).map((s) => lines.unmute(s.ssrc)), "unmute the selected members"),
  clear: () => { picked.clear(); render(); },
  revert: (of) => {
    const number = Number(of), line = lines.revert(number);
    takes({ number, line }, `Revert: ${begun(saidOf(number))}`, line, "Revert");
  },
  save,
  restore: () => at("file").click(),
  name: async (of) => {
    const [kind, number] = of.split(" ");
    const text = `All browsers show it. It has ${LONGEST_NAME} characters at most; an empty name takes it away.`;
    const name = await question(`Name ${of}`, text, "Keep", nameOf(names, kind, number));
    if (name !== null) rename(kind, Number(number), name);
  },
  "remove-room": async (of) => {
    const room = Number(of), saw = desk.version;
    if (membersIn(desk, room).length > FEW_MEMBERS && !at("collect").checked) {
      const text = `${goesAlong(desk, room)} go along. Undo brings all of it back, and Revert in the history later on.`;
      const what = spoken(nameOf(names, "room", room), "room", room);
      if (await question(`Remove ${what}?`, text, "Remove") === null) return;
    }
    call(lines.removeRoom(room), undefined, undefined, saw);
  },
};

const slotOf = (ssrc) => withField(desk.slots, "ssrc", ssrc)[0];
const evenlyHeard = (member) => heard(desk, memberOf(desk, member)).filter((s) => s.gain === 256);

// What a choice offers, and what is done with what is picked.
export const choices = {
  subscribe: { options: (slot) => videosFor(desk, slotOf(slot)).map((ssrc) => [ssrc, sourceLabel(ssrc)]),
    choose: (slot, ssrc) => call(lines.subscribe(slot, ssrc)) },
  "move-member": { options: (member) => roomsFor(desk, memberOf(desk, member)).map(roomOption),
    choose: (member, room) => call(lines.moveMember(member, room)) },
  "gain-of": { options: (member) => evenlyHeard(member).map((s) => [s.ssrc, sourceLabel(s.ssrc)]),
    choose: (member, ssrc) => { widened.add(`${member} ${ssrc}`); render(); } },
  "move-chosen": { options: () => desk.rooms.map(roomOption),
    choose: (_, room) => callAll(movedAll(desk, [...picked], room), `move the selected members to room ${room}`) },
};
export const roomOption = (room) => [room, labelled(nameOf(names, "room", room), room)];
export function offer(select) {
  if (select.options.length > 1) return;
  const [kind, of] = select.dataset.choice.split(" ");
  select.append(...choices[kind].options(Number(of)).map(([value, text]) => el("option", { value }, text)));
}

// Where there are more rooms than these few, a room is folded until it is unfolded.
const FEW_ROOMS = 8;
export const isFolded = (room) => folded.get(room) ?? desk.rooms.length > FEW_ROOMS;
export function setHere(member) {
  const row = memberOf(desk, member);
  if (row) here.set(row.room, member);
}
"##;

/// taking.js
pub(crate) const TAKING_JS: &[u8] = br##"
// Taking calls back, and doing them again.
import { callerInWords, isOthers, makesRooms, timeOf, whoOf } from "./people.js";
import { calls, desk, me, mine, names, past } from "./known.js";
import { at } from "./view.js";
import { call, notice, question, saidOf, whyNot } from "./page.js";

// What a question is about that a newer change closes.
let asked = null;
// Asks before another one's calls, or a restored desk, are taken back. A change that comes meanwhile closes the
// question.
async function mayTake(numbers, word) {
  const some = numbers.map((number) => calls.get(number));
  const others = some.filter((one) => isOthers(one, me, mine) || makesRooms(one));
  if (others.length === 0) return true;
  const [{ number, moment }] = others, whose = [...new Set(others.map(whoOf))].join(", ");
  const many = others.length > 1 ? ` That is the newest of ${others.length}.` : "";
  asked = { numbers, version: past.version };
  const text = `${timeOf(moment, Date.now())} ${whoOf(others[0])}: ${saidOf(number)}.${many}`;
  const isWanted = await question(`${word} what ${whose} did?`, text, word) !== null;
  asked = null;
  return isWanted;
}
export function closeStale() {
  if (!asked || asked.version === past.version) return;
  at("ask").close();
  notice("Not done: another change came first. Look, and press again.");
}
// Sends a line that wasn't sent since another person's call of its row came first, if that is still wanted.
export async function sendsAfter(other, line, words, key) {
  const text = `${callerInWords(other, { names, desk, past })} Yours was not sent: ${words}.`;
  if (await question("Send yours all the same?", text, "Send") === null) return 0;
  return call(line, words, key, Math.max(other.number, desk.version));
}
// Takes a call back, or does one again, by a line.
export async function takes({ number, line }, words, key, word) {
  if (word === "Redo" || whyNot(line, key) || await mayTake([number], word)) await call(line, words, key);
}

// Undoes or redoes calls, one after another. It stops where one isn't accepted, such as where another call came first.
export async function goes({ word, calls: those }) {
  const name = word === "undo" ? "Undo" : "Redo";
  if (word === "undo" && !await mayTake(those.map(({ number }) => number), name)) return;
  let version = past.version;
  for (const { number } of those) {
    if (version) version = await call(`${word} ${version}`, `${name}: ${saidOf(number)}`, null);
  }
}
"##;

/// link.js
pub(crate) const LINK_JS: &[u8] = br##"
// Asking the page's program, and what comes in: the desk, its history, and what others did.
import { changedRooms, changes, memberOf, parseDesk, sourceOf } from "./lines.js";
import { gainInWords } from "./levels.js";
import { callsIn, timeOf, whoOf } from "./people.js";
import { isOlderText } from "./news.js";
import { GONE, linkInWords, linkOf, othersObjects } from "./rules.js";
import { parseHistory, worded } from "./history.js";
import { MARKED, asking, calls, desk, drag, freshAt, lastNews, me, mine, names, namesVersion, past, resting, set,
  shownText, since, timer, told, touchedAt } from "./known.js";
import { at, touched, waits } from "./view.js";
import { notice, saidOf, showWaits, sourceLabel, takeNames, tellNews } from "./page.js";
import { closeStale } from "./taking.js";
import { isFollowed } from "./stream.js";
import { render, renderHistory } from "./drawing.js";

// How often the page asks for the desk by itself, how often it tries, and how long it waits, in milliseconds.
export const EVERY = 250, PATIENCE = 8000;
const TRIES = 3;
let token = document.querySelector('meta[name="desk-token"]').content;
let isAskedAgain = false, link = "connecting";

export async function ask(path, options) {
  return fetch(path, { ...options, cache: "no-store", signal: AbortSignal.timeout(options?.method ? PATIENCE : GONE) });
}

// Asks without changing anything. A connection that has to make way for others is tried again.
export async function get(path) {
  for (let turn = 1; ; turn += 1) {
    try {
      return await ask(path);
    } catch (error) {
      if (turn === TRIES || !(error instanceof TypeError)) throw error;
      await new Promise((resolve) => { setTimeout(resolve, EVERY); });
    }
  }
}

// Posts. A call says which version of the desk its person saw. A token of an earlier run of the program is replaced,
// but nothing is sent twice.
export async function post(path, body, saw) {
  const headers = { "X-Desk-Token": token, "X-Desk-Person": me };
  if (saw !== undefined) headers["X-Desk-Seen"] = saw;
  const reply = await ask(path, { method: "POST", headers, body });
  if (reply.status === 403) await takeToken().catch(() => {});
  return reply;
}
async function takeToken() {
  const page = new DOMParser().parseFromString(await (await get("/")).text(), "text/html");
  token = page.querySelector('meta[name="desk-token"]').content;
  set.namesVersion(-1);
}
export const ANEW = "not sent: the page's program was started anew. Look, and press again.";

// Asks for the desk, and shows it where it has changed. Without a stream of events it is asked for again and again.
export async function show() {
  if (asking) {
    isAskedAgain = true;
    return;
  }
  set.asking(true);
  clearTimeout(timer);
  try {
    const reply = await get(shownText && desk.state ? `/desk.txt?after=${desk.state}` : "/desk.txt");
    const text = reply.status === 204 ? shownText : await reply.text();
    if (reply.ok) await take(text);
    else set.told(text.startsWith("Busy") ? "seats" : "bridge");
  } catch (error) {
    const isLink = error instanceof TypeError || ["TimeoutError", "AbortError"].includes(error.name);
    if (!isLink) console.error(error);
  }
  judge();
  set.asking(false);
  clearTimeout(timer);
  if (isAskedAgain) show();
  else if (!isFollowed()) set.timer(setTimeout(show, EVERY));
  isAskedAgain = false;
}

// What the page makes of its link. Where it is gone all can be read, and nothing is sent.
export const isGone = () => ["gone", "bridge", "seats"].includes(link);
export function judge() {
  const quiet = performance.now() - lastNews, is = linkOf(told, quiet);
  link = is === "live" && !desk ? "connecting" : is;
  const text = linkInWords(link, quiet, since);
  if (at("status").textContent !== text) at("status").textContent = at("status").title = text;
  at("status").className = isGone() ? "bad" : link;
  // A reader is told that the page is late, and not each second of it.
  at("status").ariaLive = link === "late" ? "off" : "polite";
  document.body.classList.toggle("gone", isGone());
}

// Texts are taken one after another, since each may have to wait for names and history.
let taking = Promise.resolve();
export function take(text) {
  taking = taking.catch(() => {}).then(() => takeText(text));
  return taking;
}
async function takeText(text) {
  set.told("");
  set.lastNews(performance.now());
  set.since(new Date().toTimeString().slice(0, 8));
  judge();
  const isNew = !shownText || (text !== shownText && !isOlderText(text, shownText));
  if (isNew && !drag) await takeDesk(text);
  if (desk && past?.version !== desk.version) await takeHistory();
}

async function takeDesk(text) {
  const next = parseDesk(text);
  const isRenamed = next.named !== namesVersion && await takeNames();
  const rows = desk ? changes(desk.rows, next.rows) : [];
  const rooms = desk && !isRenamed ? changedRooms(desk, next, rows) : null;
  // Another desk of the same version, or of an earlier one, is another bridge's.
  if (desk && (next.version < desk.version || (next.version === desk.version && rows.length > 0))) {
    set.past(null);
    set.calls(new Map());
    mine.clear();
    waits.clear();
  }
  if (desk) takeOthers(next, rows);
  set.shownText(text);
  set.desk(next);
  for (const [key, { version }] of waits) if (version && version <= desk.version) waits.delete(key);
  showWaits();
  loseSliders();
  render(rooms, rows.some((row) => /^. (room|member|source|slot) /.test(row)));
}

// Notes what others have changed, and marks the rows of these members for a while.
function takeOthers(next, rows) {
  const sent = [...waits.values()], unanswered = sent.filter(({ version }) => !version).length, now = performance.now();
  const lines = sent.map(({ line }) => line);
  const objects = othersObjects(desk.version, next.version, rows, mine, lines, unanswered);
  const marked = new Set();
  for (const object of objects) {
    touchedAt.set(object, now);
    const [kind, number] = object.split(" "), row = sourceOf(next, Number(number)) ?? sourceOf(desk, Number(number));
    if (kind === "source" && row) marked.add(row.member);
    if (["member", "gain"].includes(kind)) marked.add(Number(number));
  }
  if (marked.size === 0) return;
  for (const member of marked) freshAt.set(member, now);
  setTimeout(() => render(new Set([...marked].map((member) => memberOf(desk, member)?.room)), false), MARKED + 50);
}

// A slider that another operator has changed while it was held follows the desk, and what was held isn't sent.
function loseSliders() {
  for (const [key, one] of touched) {
    const [, member, ssrc] = key.split(" "), gain = desk.gains.get(`${member} ${ssrc}`) ?? 256;
    if (one.isLost || gain === one.from || gain === one.sent) continue;
    const node = document.querySelector(`[data-key="${CSS.escape(key)}"]`), held = node ? Number(node.value) : gain;
    clearTimeout(resting.get(key));
    one.isLost = true;
    if (node) node.value = gain;
    const whose = sourceLabel(Number(ssrc));
    notice(`Gain of ${whose} for member ${member}: another operator set ${gainInWords(gain)} while you held the `
      + `slider. Your ${gainInWords(held)} was not sent.`);
    if (!one.isDown) touched.delete(key);
  }
}

// The history and the log, as the bridge tells them. Where that fails, they are asked for with the next desk.
async function takeHistory() {
  const reply = await get("/history.txt");
  if (!reply.ok) return;
  const before = past, next = parseHistory(await reply.text(), past);
  // A log from before the history lacks its newest calls. The stream of events tells calls before the desk.
  for (let turn = 0; turn < 2 && !calls.has(next.version); turn += 1) {
    const logged = await get("/past.txt"), log = callsIn(logged.ok ? await logged.text() : "");
    set.calls(log);
    if (log.size === 0) break;
  }
  set.past(next);
  if (before) tellOthers(before);
  renderHistory();
  closeStale();
}

// Tells what others did since the history before: their calls, or what they took back or did again.
function tellOthers(before) {
  const unanswered = [...waits.values()].filter(({ version }) => !version).length;
  let count = -unanswered;
  for (let version = before.version + 1; version <= past.version; version += 1) if (!mine.has(version)) count += 1;
  if (count <= 0) return;
  const fresh = [...past.done, ...past.undone].filter(({ number }) => number > before.version && !mine.has(number));
  const more = count > 1 ? `, and ${count - 1} more` : "", last = fresh[fresh.length - 1];
  const is = past.undone.length > before.undone.length ? "undid" : "did again";
  const [taken] = (is === "undid" ? past.undone : past.done).slice(-1);
  const told = [...calls.values()].filter(({ number }) => number > before.version && !mine.has(number)).pop();
  const who = told ? `${timeOf(told.moment, Date.now())} ${whoOf(told)}` : `operator ${last?.operator}`;
  if (last) tellNews(`${who}: ${worded(names, desk, last.line, past.known)}${more}`);
  else if (taken) tellNews(`${told ? who : "another operator"} ${is}: ${saidOf(taken.number)}${more}`);
}
"##;

/// stream.js
pub(crate) const STREAM_JS: &[u8] = br##"
// The stream of events: the page's program tells what happens, and isn't asked for it. Where no stream can be had, the
// page asks as often as it does without one.
import { closedBy, closedInWords, editedText, withCalls } from "./news.js";
import { GONE } from "./rules.js";
import { calls, desk, drag, lastNews, past, set, shownText, timer, told } from "./known.js";
import { at } from "./view.js";
import { judge, show, take } from "./link.js";

// How long after a stream was refused another one is tried, and how long a tab that nobody sees keeps its own: browsers
// have six connections to a host for all of their tabs.
const RETRIED = 5000, KEPT_HIDDEN = 30000;
let stream = null, isHeard = false, openedAt = -Infinity, hiding = null, coming = Promise.resolve();
export const isFollowed = () => isHeard && stream?.readyState === EventSource.OPEN;

// News came. What the program says of its bridge stays.
function newsCame() {
  set.lastNews(performance.now());
  if (!told) set.since(new Date().toTimeString().slice(0, 8));
  judge();
}
const onEvent = {
  hello: (state) => {
    isHeard = true;
    clearTimeout(timer);
    if (!desk || desk.state !== state) return show();
    set.told("");
    return newsCame();
  },
  desk: (edit) => {
    const text = shownText === null || drag ? null : editedText(shownText, edit);
    return text === null ? show() : take(text);
  },
  lease: (state) => showClosed(closedBy(state)),
  call: (line) => { set.calls(withCalls(calls, line)); },
  bridge: (word) => {
    set.told({ gone: "bridge", busy: "seats" }[word] ?? "");
    newsCame();
    return told ? null : show();
  },
  beat: () => {
    newsCame();
    const isBehind = desk && shownText !== null && !told && past?.version !== desk.version;
    return isBehind ? take(shownText) : null;
  },
};
// Says at the top that the desk is closed. The list moves by that line, so that a press just then is refused.
function showClosed(name) {
  const text = name === null ? "" : closedInWords(name);
  if (at("closed").textContent === text) return;
  at("closed").textContent = at("closed").title = text;
  document.body.classList.toggle("closed", name !== null);
  set.movedAt(performance.now());
}
export function openStream() {
  closeStream();
  openedAt = performance.now();
  stream = new EventSource("/events");
  for (const [name, take] of Object.entries(onEvent)) {
    stream.addEventListener(name, ({ data }) => { coming = coming.then(() => take(data)).catch(console.error); });
  }
  stream.addEventListener("error", () => {
    isHeard = false;
    show();
  });
}
export function closeStream() {
  stream?.close();
  stream = null;
  isHeard = false;
}
// Opens a stream again that was refused, or that says nothing any more.
export function watchStream() {
  if (!stream || performance.now() - openedAt < RETRIED) return;
  const isSilent = isHeard && performance.now() - lastNews > GONE;
  if (stream.readyState === EventSource.CLOSED || isSilent) openStream();
}
document.addEventListener("visibilitychange", () => {
  clearTimeout(hiding);
  if (document.visibilityState !== "visible") hiding = setTimeout(closeStream, KEPT_HIDDEN);
  else if (!stream) openStream();
});
"##;

/// counts.js
pub(crate) const COUNTS_JS: &[u8] = br##"
// What the bridge counts: asking for it, and the senders that are no source.
import { parseStats, strangersIn, turnedRooms } from "./stats.js";
import { tracedAll } from "./plots.js";
import { desk, filter, set, stats } from "./known.js";
import { at, strangerItem } from "./view.js";
import { drawFigures } from "./rows.js";
import { ask } from "./link.js";
import { drawHeld, isHeld } from "./places.js";
import { render } from "./drawing.js";

// How long after a count the next one is asked for, in milliseconds. An answer for many sources is long.
const OFTEN = 1000, SELDOM = 2000, MANY_SOURCES = 256;
let counted = -Infinity, counting = false;
// The figures of two minutes, by member.
export let traces = new Map();
const countedEvery = () => (stats && stats.sources.size > MANY_SOURCES ? SELDOM : OFTEN);
// Asks what the bridge counts, while somebody can see the page. Where the bridge doesn't know the question, the status
// is no success, and nothing is shown of it.
export async function count() {
  if (counting || document.visibilityState !== "visible" || performance.now() - counted < countedEvery()) return;
  counting = true;
  counted = performance.now();
  try {
    const reply = await ask("/stats");
    takeStats(reply.ok ? parseStats(await reply.text(), stats, performance.now()) : null);
  } catch (error) {
    // What was counted last stays where no answer came.
    if (error instanceof SyntaxError) console.error(error);
  }
  counting = false;
}
function takeStats(next) {
  const before = stats;
  set.stats(next);
  traces = next && desk ? tracedAll(traces, desk, next) : new Map();
  if (!desk) return;
  if (!before) set.orderedAt(-Infinity);
  const turned = before || next ? turnedRooms(desk, before, next) : new Set();
  // Rooms with trouble rise, and who ceases to fit a filter goes, even where nothing has turned since the count before.
  render(filter ? null : turned, false);
  drawFigures();
}

// The senders that are no source, where the bridge tells of any.
export function renderStrangers() {
  const items = strangersIn(stats, desk).map((model) => ({ key: `${model.address} ${model.ssrc}`, model }));
  if (!isHeld("aside")) at("unknown").hidden = items.length === 0;
  drawHeld(at("strangers"), items, strangerItem);
}

// Fills in the form that adds a source. Which member it is of is the operator's choice.
export function fillSource(ssrc) {
  const found = strangersIn(stats, desk).find((one) => one.ssrc === ssrc);
  if (!found) return;
  const { member, kind } = found, fields = at("add-source").elements;
  fields.ssrc.value = ssrc;
  fields.kind.value = kind;
  if (member !== null) fields.member.value = member;
  fields.member.focus();
}
"##;

/// places.js
pub(crate) const PLACES_JS: &[u8] = br##"
// What stands where: the rooms, their members, and the numbers of the whole bridge.
import { memberOf, membersIn } from "./lines.js";
import { labelled, memberLine, nameOf, overview, roomLine, wordsOf } from "./overview.js";
import { UNKNOWN, figuresOf, isLossy, isSilent, strangersIn } from "./stats.js";
import { SETTLED, inOldPlaces, isCounted, placeChanges, tallyOf, troubleOf } from "./rules.js";
import { MARKED, desk, drag, filter, freshAt, heldAside, here, names, opened, orderedAt, picked, set,
  stats } from "./known.js";
import { at, drawList, el, morphChildren, roomCard } from "./view.js";
import { memberRow } from "./rows.js";
import { isFolded } from "./page.js";
import { render } from "./drawing.js";

// Places. Nothing comes, goes or moves in the list or beside it while the pointer is there, a button is held, or a menu
// is open, and until 600 ms after a touch. What a row says changes at once.
const over = { board: false, aside: false }, TOUCH = 600;
let down = null, heldBack = 0, drawnPlan = [], drawnSum = "";
let order = new Map(), spoke = new Set();
export const lastFit = new Map();
const isMenuOpen = () => CSS.supports("selector(:open)") && document.querySelector("select:open") !== null;
export function isHeld(part) { return over[part] || down === part || drag !== null || isMenuOpen(); }
function releases() {
  down = null;
  if (heldBack > 0 || heldAside) render();
}
for (const part of ["board", "aside"]) {
  at(part).addEventListener("pointerenter", ({ pointerType }) => { over[part] = pointerType === "mouse"; });
  at(part).addEventListener("pointerleave", () => {
    over[part] = false;
    if (down !== part) releases();
  });
  at(part).addEventListener("pointerdown", () => { down = part; });
}
for (const type of ["pointerup", "pointercancel", "dragend"]) {
  document.addEventListener(type, ({ pointerType }) => {
    if (down) setTimeout(releases, pointerType === "mouse" || type === "dragend" ? 0 : TOUCH);
  });
}
at("waiting").addEventListener("click", () => render(null, true, true));

// Tells how many changes of place are held back.
export function tellHeld() {
  const count = heldBack + Number(heldAside), what = `change${count === 1 ? "" : "s"} of place held back: show now`;
  const text = count ? `${count} ${what}` : "";
  if (at("waiting").textContent !== text) at("waiting").textContent = text;
  at("waiting").hidden = count === 0;
}

// Draws a list beside the overview: while places are held, what was drawn before stays where it is.
export function drawHeld(node, items, draw) {
  const old = [...(node.drawn ?? [])].map(([key, { model }]) => ({ key, model }));
  const isSame = old.map(({ key }) => key).join() === items.map(({ key }) => key).join();
  if (isSame || old.length === 0 || !isHeld("aside")) return drawList(node, items, draw);
  set.heldAside(true);
  const kept = inOldPlaces(old, items, "key");
  return drawList(node, kept.map(({ key, model, hasLeft }) => ({ key, model: { ...model, hasLeft } })), draw);
}

// What is counted of a room, and who of it is in trouble, until something of it changes.
export const infos = new Map();
export function infoOf(room) {
  if (!infos.has(room)) {
    const members = membersIn(desk, room);
    const troubled = members.filter((one) => troubleOf(desk, stats, one) !== "").map(({ member }) => member);
    infos.set(room, { tally: tallyOf(desk, stats, members), troubled });
  }
  return infos.get(room);
}
// Whether a member is one of those that are counted. Who ceases to be one stays for some seconds.
function isShown(member) {
  const now = performance.now();
  if (isCounted(desk, stats, filter, member)) lastFit.set(member.member, now);
  return now - (lastFit.get(member.member) ?? -Infinity) < SETTLED;
}
// The rooms by trouble, or by who speaks. Their order is made anew every few seconds at most.
function sortRooms(isAsked) {
  if (!isAsked && order.size > 0 && (performance.now() - orderedAt < SETTLED || isHeld("board"))) return;
  const key = at("sort").value === "speaking" ? "speaking" : "weight", weight = (room) => infoOf(room).tally[key];
  const rooms = [...desk.rooms].sort((a, b) => weight(b) - weight(a) || a - b);
  order = new Map(rooms.map((room, place) => [room, place]));
  spoke = new Set(key === "weight" ? [] : desk.members.filter((one) => isCounted(desk, stats, key, one))
    .map(({ member }) => member));
  set.orderedAt(performance.now());
}
const placeOf = (room) => order.get(room) ?? Number.MAX_SAFE_INTEGER;
// Where rooms are by who speaks, their members are.
const bySpeech = (members) => (spoke.size === 0 ? members :
  [...members.filter((one) => spoke.has(one)), ...members.filter((one) => !spoke.has(one))]);

// What should be drawn: each room, and of a folded one those in trouble, and who speaks where the order is by that.
function planOf(isNarrowed) {
  const found = overview(desk, names, at("search").value, at("sort").value, filter ? isShown : null, placeOf);
  return found.map(({ room, members }) => {
    const isClosed = !isNarrowed && isFolded(room), { troubled } = infoOf(room);
    const isBrief = isClosed && spoke.size === 0, all = isBrief ? troubled : members.map(({ member }) => member);
    const shown = isClosed && !isBrief ? all.filter((one) => spoke.has(one) || troubled.includes(one)) : all;
    return { room, isClosed, members: bySpeech(shown) };
  });
}

// About how high a member and the head of a room are, for rooms that aren't drawn since nobody sees them, in pixels.
const ROW_HEIGHT = 25, HEAD_HEIGHT = 34;
// The overview. Where only some rooms have changed, the others stay as they are drawn. What an operator asks for of the
// list itself, such as a search, is done at once.
export function renderRooms(changed, isAsked) {
  const isNarrowed = wordsOf(at("search").value).length > 0 || filter !== "";
  sortRooms(isAsked);
  const next = planOf(isNarrowed), moved = placeChanges(drawnPlan, next);
  const isKept = moved > 0 && drawnPlan.length > 0 && !isAsked && isHeld("board"), plan = isKept ? drawnPlan : next;
  if (moved > 0 && drawnPlan.length > 0 && !isKept && (!isAsked || heldBack > 0)) set.movedAt(performance.now());
  heldBack = isKept ? moved : 0;
  const known = at("board").drawn ?? new Map(), all = !changed || isNarrowed;
  const items = plan.map(({ room, isClosed, members }) => (!all && !changed.has(room) ? { key: room, isKept: true } :
    { key: room, members, model: roomModel(room, isClosed, members, known.get(room)?.model) }));
  drawnPlan = plan;
  const drawn = drawList(at("board"), items, roomCard);
  for (const { key, members } of items.filter((item) => !item.isKept)) {
    const { node } = drawn.get(key), list = node.lastElementChild, known = list.drawn ?? new Map();
    node.style.containIntrinsicHeight = `auto ${HEAD_HEIGHT + ROW_HEIGHT * members.length}px`;
    drawList(list, members.map((member) => memberItem(key, member, members, known.get(member)?.model)), memberRow);
  }
  const none = desk.rooms.length ? "Nothing fits what you look for." : "There is no room yet: add one.";
  at("nothing").textContent = none;
  at("nothing").hidden = plan.length > 0;
  at("fold").textContent = desk.rooms.every(isFolded) ? "Unfold all" : "Fold all";
}
function roomModel(room, isFolded, members, known) {
  if (!desk.rates.has(room)) return { ...known, left: "was removed" };
  return { ...roomLine(desk, names, room), isFolded, tally: infoOf(room).tally, isEmpty: members.length === 0 };
}

export function withCount(s) {
  return { ...s, isSilent: isSilent(stats, desk, s.ssrc), isLossy: isLossy(stats, desk, s.ssrc) };
}
function memberItem(room, number, members, known) {
  const isHere = number === (members.includes(here.get(room)) ? here.get(room) : members[0]);
  const member = memberOf(desk, number);
  // One that has gone is drawn here as long as places are held.
  if (member?.room !== room) {
    const left = member ? `is now in room ${labelled(nameOf(names, "room", member.room), member.room)}` : "has left";
    const model = { ...known, left, isHere, isChosen: false, isFresh: false, trouble: "" };
    return { key: number, room, figures: UNKNOWN, model };
  }
  const line = memberLine(desk, names, member), isFresh = performance.now() - freshAt.get(number) < MARKED;
  const model = { ...line, sends: line.sends.map(withCount), trouble: troubleOf(desk, stats, member),
    isOpen: opened === number, isChosen: picked.has(number), isHere, isFresh };
  return { key: number, room, figures: figuresOf(desk, stats, member), model };
}

// The numbers of the whole bridge. Those of members are filters, and the one of all members takes a filter away.
export function renderSum() {
  const keys = ["speaking", "silent", "losing", "muted"];
  const sums = keys.map((key) => desk.rooms.reduce((all, room) => all + infoOf(room).tally[key], 0));
  const unknown = strangersIn(stats, desk).length, rooms = desk.rooms.length, people = desk.members.length;
  const look = [rooms, people, ...sums, unknown, filter].join();
  if (look === drawnSum) return;
  drawnSum = look;
  const one = (count, what) => (count === 1 ? what.slice(0, -1) : what);
  const number = (count, what, more) => el("button", { type: "button", class: `number${count ? " some" : ""}`,
    ...more }, el("b", {}, count.toLocaleString("en")), " ", el("span", {}, what));
  const counts = (key, count, what = key) => number(count, what, { "data-key": `filter ${what}`, "data-act": "filter",
    "data-of": key, "aria-pressed": String(filter === key) });
  morphChildren(at("sum"), [
    el("span", { "data-key": "rooms" }, `${rooms.toLocaleString("en")} ${one(rooms, "rooms")}`),
    counts("", people, one(people, "members")),
    ...keys.map((key, at) => counts(key, sums[at])),
    number(unknown, "unknown", { "data-key": "unknown", "data-act": "unknown", "data-of": "",
      disabled: unknown === 0 })]);
}
"##;

/// drawing.js
pub(crate) const DRAWING_JS: &[u8] = br##"
// Drawing what stands around the rooms, and all of the page.
import { heard, memberOf, membersIn, seen, slotsOf, suggested } from "./lines.js";
import { labelled, memberLine, nameOf, sourceName } from "./overview.js";
import { levelInWords, spanInWords } from "./levels.js";
import { countInWords, countOf, figuresOf, streamInWords } from "./stats.js";
import { timeOf, whoOf } from "./people.js";
import { PLOTS, plotted } from "./plots.js";
import { inOldPlaces, isMuted, redoOf, troubleOf, undoOf } from "./rules.js";
import { wayTo, worded } from "./history.js";
import { calls, desk, here, names, opened, past, picked, set, stats, suggestions, walked, widened } from "./known.js";
import { at, callItem, chooses, detailPanel, does, el, morph, morphChildren, wayOf } from "./view.js";
import { STATES, cellsOf } from "./rows.js";
import { roomOption, saidOf } from "./page.js";
import { takes } from "./taking.js";
import { renderStrangers, traces } from "./counts.js";
import { drawHeld, infos, isHeld, renderRooms, renderSum, tellHeld, withCount } from "./places.js";

// Undo and Redo name the call that they take. Their line has the version at which that is so, or is a revert that
// leaves what programs did since.
function button(id, word, top) {
  const text = top ? `${word}: ${saidOf(top.number)}` : word, isAlone = top?.line.startsWith("revert ");
  if (at(id).textContent !== text) at(id).textContent = text;
  const how = `${text} (${top?.line}${isAlone ? ", later calls stay" : ""})`;
  at(id).title = top ? how : past ? `there is nothing to ${id}` : "";
  at(id).disabled = !top;
  at(id).onclick = () => takes(top, text, id, word);
}
// Fills a choice again, and keeps what was picked.
function options(form, field, values) {
  const select = at(form).elements[field], kept = select.value;
  const texts = values.map(([value, text]) => `${value} ${text}`).join("\n");
  if (select.dataset.texts === texts || select === document.activeElement) return;
  select.dataset.texts = texts;
  select.replaceChildren(...values.map(([value, text]) => el("option", { value }, text)));
  if (values.some(([value]) => String(value) === kept)) select.value = kept;
}

// Suggests a number in a field that no operator has changed.
function suggest(form, field, number) {
  const input = at(form).elements[field], key = `${form} ${field}`;
  if (document.activeElement === input || (input.value !== "" && input.value !== suggestions.get(key))) return;
  input.value = number;
  suggestions.set(key, String(number));
}

function renderSelected() {
  for (const member of picked) if (!memberOf(desk, member)) picked.delete(member);
  at("selected").hidden = picked.size === 0;
  if (picked.size === 0) return;
  const what = "the selected members";
  morphChildren(at("selected"), [el("strong", {}, `${picked.size} selected`),
    chooses("Move to room", what, "move-chosen"), does("Mute", "mute-chosen", "", what),
    does("Unmute", "unmute-chosen", "", what), does("Clear", "clear", "", "the selection")]);
}

// What is counted of a member, for its panel.
function countedDetail(member) {
  const figures = figuresOf(desk, stats, member), { level, isSpeaking } = figures;
  const heard = level === null ? ["\u2013", "", ""] : [levelInWords(level), "", spanInWords(stats.span)];
  const speech = isSpeaking ? `speaks${isMuted(desk, member.member) ? " while muted" : ""}` : "";
  const cells = cellsOf(figures).map(([, text, kind], at) => [["Loss in", "Jitter", "Loss out", "Trip"][at],
    text === "\u2013" ? text : `${text} ${["%", "ms"][at % 2]}`, kind.trim()]);
  const trace = traces.get(member.member) ?? [], plots = PLOTS.map((_, place) => plotted(trace, place, stats?.at ?? 0));
  return { told: [STATES[troubleOf(desk, stats, member)][2], speech].filter(Boolean).join("; ") || "nothing stands out",
    figures: [["Level", ...heard], ...cells].map(([what, text, kind, title], place) =>
      [what, text, kind, title, plots[place]]),
    mixed: stats && streamInWords(stats.streams.get(member.mix)) };
}

// What the panel of a member says.
function detailOf(member) {
  const { sends: sources, floor } = memberLine(desk, names, member), room = member.room;
  const label = (ssrc) => labelled(sourceName(names, desk, ssrc), ssrc), hears = heard(desk, member);
  const isShown = (s) => s.gain !== 256 || widened.has(`${member.member} ${s.ssrc}`);
  const counted = countedDetail(member);
  return { member: member.member, name: nameOf(names, "member", member.member), room, floor, address: member.address,
    codec: member.codec, mix: member.mix, roomLabel: `room ${labelled(nameOf(names, "room", room), room)}`,
    ...counted,
    sources: sources.map((s) => ({ ...withCount(s), isPinned: desk.pins.get(room) === s.ssrc,
      count: countInWords(countOf(stats, desk, s.ssrc)) })),
    slots: slotsOf(desk, member.member).map((slot) => {
      const { source, by: rule, why } = seen(desk, slot);
      return { slot: slot.ssrc, index: slot.index, source, by: rule, why, isSubscribed: desk.subs.has(slot.ssrc),
        label: source === null ? "" : label(source), count: stats && streamInWords(stats.streams.get(slot.ssrc)) };
    }),
    gains: hears.filter(isShown).map((s) => ({ ...s, label: label(s.ssrc) })),
    hears: hears.some((s) => !isShown(s)), others: membersIn(desk, room).length > 1 };
}
let drawnPanel = null;
export function renderDetail() {
  const member = opened === null ? undefined : memberOf(desk, opened);
  const isStill = drawnPanel?.member === opened;
  if (member) drawnPanel = isStill && isHeld("aside") ? heldDetail(drawnPanel, detailOf(member)) : detailOf(member);
  else if (isStill && isHeld("aside")) {
    drawnPanel = { ...drawnPanel, left: "has left" };
    set.heldAside(true);
  } else {
    set.opened(null);
    drawnPanel = null;
    at("detail").hidden = true;
    at("detail").replaceChildren();
    return;
  }
  morph(at("detail"), detailPanel(drawnPanel));
}
// The panel in the shape that it has.
function heldDetail(before, now) {
  const keys = { sources: "ssrc", slots: "slot" }, kept = { ...now, others: before.others, hears: before.hears };
  for (const [part, key] of Object.entries(keys)) {
    kept[part] = inOldPlaces(before[part], now[part], key);
    if (before[part].map((one) => one[key]).join() !== now[part].map((one) => one[key]).join()) set.heldAside(true);
  }
  kept.gains = before.gains.map((one) => {
    const found = heard(desk, memberOf(desk, now.member)).find((s) => s.ssrc === one.ssrc);
    return found ? { ...one, ...found, hasLeft: false } : { ...one, hasLeft: true };
  });
  const isWider = now.gains.some((one) => !before.gains.some((old) => old.ssrc === one.ssrc));
  if (isWider || now.gains.length !== before.gains.length) set.heldAside(true);
  return kept;
}

export function renderHistory() {
  button("undo", "Undo", past && undoOf(past, calls));
  button("redo", "Redo", past && redoOf(past, calls));
  const way = past && walked !== null ? wayTo(past, walked) : null, passed = way?.calls.map((one) => one.number) ?? [];
  const item = (one, isUndone) => {
    const isWalked = one.number === walked && way !== null, canRevert = isWalked && !isUndone && passed.length > 0;
    return { key: one.number, model: { number: one.number, ...whenAndWho(one), isUndone, isWalked,
      text: worded(names, desk, one.line, past.known), isOnWay: passed.includes(one.number),
      way: isWalked ? wayOf(way) : null, revert: canRevert ? saidOf(one.number) : null } };
  };
  const undone = (past?.undone ?? []).map((one) => item(one, true));
  at("no-calls").hidden = !past || past.done.length + past.undone.length > 0;
  const row = document.activeElement?.closest("#calls li"), others = row ? besides([...at("calls").children], row) : [];
  drawHeld(at("calls"), [...undone, ...(past?.done ?? []).map((one) => item(one, false)).reverse()], callItem);
  // Where a call goes, as a revert takes it, the focus goes to the one after it, or else before it.
  if (row && !row.isConnected) others.find((one) => one.isConnected)?.querySelector("button").focus();
}
// When a call of the history was given, and by whom.
function whenAndWho({ number, operator }) {
  const one = calls.get(number);
  return { when: one ? `${timeOf(one.moment, Date.now())} ` : "", who: whoOf(one ?? { operator }) };
}
// The rows after a row of a list, and then those before it, from the nearest one on.
function besides(rows, row) {
  const place = rows.indexOf(row);
  return [...rows.slice(place + 1), ...rows.slice(0, place).reverse()];
}
function renderForms() {
  const rooms = desk.rooms.map(roomOption);
  const people = desk.members.map(({ member }) => [member, labelled(nameOf(names, "member", member), member)]);
  options("add-person", "room", rooms);
  options("add-member", "room", rooms);
  options("add-source", "member", people);
  options("add-slot", "member", people);
  for (const [id, field, number] of suggested(desk)) suggest(id, field, number);
}

// Draws what may have changed: some rooms, or all where none are given, and the forms unless their choices are as
// before. What is asked for by the operator changes places at once.
export function render(changed = null, hasForms = true, isAsked = false) {
  if (!desk) return;
  const focused = document.activeElement, key = focused?.dataset?.key, heirs = heirsOf(focused);
  set.heldAside(false);
  if (changed) for (const room of changed) infos.delete(room);
  else infos.clear();
  renderSum();
  renderRooms(changed, isAsked);
  renderSelected();
  renderDetail();
  renderStrangers();
  renderHistory();
  tellHeld();
  if (!changed || hasForms) renderForms();
  const title = `Desk, version ${desk.version}`;
  if (document.title !== title) document.title = title;
  if (!key || document.activeElement?.dataset?.key === key) return;
  const next = [key, ...heirs].map((one) => document.querySelector(`[data-key="${CSS.escape(one)}"]`)).find(Boolean);
  next?.focus({ preventScroll: true });
}
// Where the focus goes if its row goes: to the row after it, or else before it.
function heirsOf(node) {
  const row = node?.closest?.("#board .member");
  if (!row) return node?.closest?.("#board, #detail") ? ["open " + [...here.values()].pop()] : [];
  const others = besides([...document.querySelectorAll("#board .member")], row).slice(0, 64);
  return others.map((one) => `open ${one.dataset.member}`);
}
"##;

/// hands.js
pub(crate) const HANDS_JS: &[u8] = br##"
// What clicks, keys and drags do.
import { codecOf, dropped, lines } from "./lines.js";
import { cut, movedAll } from "./overview.js";
import { gainInWords } from "./levels.js";
import { newcomer } from "./stats.js";
import { personWord } from "./people.js";
import { JUST } from "./rules.js";
import { desk, drag, folded, group, movedAt, opened, past, picked, resting, set, stats, suggestions } from "./known.js";
import { at, touched } from "./view.js";
import { acts, call, callAll, choices, closeNotice, isFolded, notice, offer, rename, restore, setHere,
  showGroup } from "./page.js";
import { EVERY, judge, show } from "./link.js";
import { isFollowed, openStream, watchStream } from "./stream.js";
import { count } from "./counts.js";
import { render, renderDetail, renderHistory } from "./drawing.js";

// How often the link is judged, and how long a slider rests before its line is sent, in milliseconds.
const JUDGED_EVERY = 500, REST = 400;

// Clicks and choices.
document.addEventListener("click", (event) => {
  const node = event.target.closest("[data-line],[data-act],[data-select]");
  if (!node || !desk) return;
  if (node.getAttribute("aria-disabled") === "true") {
    event.preventDefault();
    notice("Not done: that has left. Its row goes once the pointer has left the list.");
  } else if (event.detail > 0 && performance.now() - movedAt < JUST && node.closest("#board")) {
    event.preventDefault();
    notice("Not done: the list has just moved. Look, and press again.");
  } else if (node.dataset.select) {
    picked[node.checked ? "add" : "delete"](Number(node.dataset.select));
    render();
  } else presses(node.dataset.key, () => {
    if (node.dataset.act) acts[node.dataset.act](node.dataset.of);
    else call(node.dataset.line, node.dataset.words);
  });
});
// Does what a control is for. What it sends has its answer shown at the control.
function presses(key, act) {
  set.pressed(key);
  act();
  set.pressed(null);
}
const tells = ({ target }) => {
  const line = target.closest?.("[data-line]")?.dataset.line;
  if (line && document.activeElement !== at("line")) at("line").placeholder = line;
};
document.addEventListener("pointerover", tells);
document.addEventListener("focusin", (event) => {
  tells(event);
  if (event.target.matches("select[data-choice]")) offer(event.target);
});
document.addEventListener("pointerdown", ({ target }) => { if (target.matches("select[data-choice]")) offer(target); });
document.addEventListener("focusout", ({ target }) => {
  if (target.matches("select[data-choice]")) for (const option of [...target.options].slice(1)) option.remove();
});
document.addEventListener("change", ({ target }) => {
  if (!target.matches("select[data-choice]") || target.value === "") return;
  const [kind, of] = target.dataset.choice.split(" "), value = Number(target.value);
  target.value = "";
  presses(target.dataset.key, () => choices[kind].choose(Number(of), value));
});

// A slider sends one line, once it has rested. It is the operator's while it is held, and for so long after a key.
function holdsSlider({ dataset: { key } }, isDown) {
  const [, member, ssrc] = key.split(" "), from = desk.gains.get(`${member} ${ssrc}`) ?? 256;
  if (!touched.has(key)) touched.set(key, { from, sent: null, isLost: false, isDown });
  return touched.get(key);
}
function endsSlider(key) {
  const one = touched.get(key);
  if (!one || one.isDown) return;
  touched.delete(key);
  renderDetail();
}
document.addEventListener("pointerdown", ({ target }) => {
  if (target.dataset?.gain && desk) holdsSlider(target, true).isDown = true;
});
for (const type of ["pointerup", "pointercancel"]) {
  document.addEventListener(type, () => {
    for (const [key, one] of touched) {
      one.isDown = false;
      if (one.isLost || !resting.has(key)) endsSlider(key);
    }
  });
}
document.addEventListener("input", ({ target }) => {
  if (!target.dataset.gain || !desk) return;
  const { key, gain } = target.dataset, one = holdsSlider(target, false);
  clearTimeout(resting.get(key));
  if (one.isLost) {
    const [, member, ssrc] = key.split(" ");
    target.value = desk.gains.get(`${member} ${ssrc}`) ?? 256;
    resting.delete(key);
    return;
  }
  target.ariaValueText = gainInWords(target.value);
  target.parentNode.querySelector(".soft").textContent = ` ${target.ariaValueText}`;
  resting.set(key, setTimeout(async () => {
    resting.delete(key);
    one.sent = Number(target.value);
    await call(`${gain}${one.sent}`, `${gain}${one.sent}`, null);
    if (!one.isLost) one.from = one.sent;
    if (!resting.has(key)) endsSlider(key);
  }, REST));
});

// Members can be dragged to rooms, and video sources to slots. No drag begins at a field of a line.
document.addEventListener("pointerdown", ({ target }) => {
  const row = target.closest(".member");
  if (row) row.draggable = !target.closest("input,select") && !row.classList.contains("left");
});
document.addEventListener("dragstart", (event) => {
  const source = event.target.closest?.(".source"), row = event.target.closest?.(".member");
  if (source) set.drag({ source: Number(source.dataset.source) });
  else if (row) set.drag({ member: Number(row.dataset.member) });
  else return;
  event.dataTransfer.setData("text/plain", "");
});
const dropAt = (event) => {
  const node = event.target.closest?.("[data-slot],[data-room]");
  const on = !node ? {} : node.dataset.slot ? { slot: Number(node.dataset.slot) } : { room: Number(node.dataset.room) };
  return { node, line: node && drag && desk ? dropped(desk, drag, on) : null };
};
const unmark = () => document.querySelectorAll(".over").forEach((one) => one.classList.remove("over"));
document.addEventListener("dragover", (event) => {
  const { node, line } = dropAt(event);
  unmark();
  if (!line) return;
  event.preventDefault();
  node.classList.add("over");
});
document.addEventListener("drop", (event) => {
  const { line } = dropAt(event);
  unmark();
  if (!line) return;
  event.preventDefault();
  const isMany = drag.member !== undefined && picked.has(drag.member) && picked.size > 1;
  set.drag(null);
  if (isMany) callAll(movedAll(desk, [...picked], Number(line.split(" ")[2])), "move the selected members");
  else call(line);
});
document.addEventListener("dragend", () => {
  unmark();
  set.drag(null);
  set.shownText(null);
  if (isFollowed()) show();
});

// Keys.
const isText = (node) => node.matches("input:not([type=checkbox]):not([type=range]),select,textarea");
function memberAt(node) { return Number(node.closest("[data-member]")?.dataset.member ?? opened ?? NaN); }
function step(node, by) {
  const rows = [...document.querySelectorAll("#board .who")], next = rows[rows.indexOf(node) + by];
  if (!next) return;
  setHere(Number(next.dataset.of));
  render();
  next.focus();
}
// The next row in trouble, round the list.
function nextInTrouble() {
  const rows = [...document.querySelectorAll("#board .who")], at = rows.indexOf(document.activeElement);
  const next = [...rows.slice(at + 1), ...rows.slice(0, at + 1)].find((node) => node.closest(".trouble"));
  if (!next) return notice("Nobody who is drawn here is in trouble.", true);
  setHere(Number(next.dataset.of));
  render();
  next.focus();
  return next.scrollIntoView({ block: "nearest" });
}
const keys = {
  "/": () => { at("search").focus(); at("search").select(); },
  m: (node) => { const of = memberAt(node); if (!Number.isNaN(of)) presses(`toggle ${of}`, () => acts.toggle(of)); },
  n: () => nextInTrouble(),
  ArrowDown: (node) => node.matches(".who") && step(node, 1),
  ArrowUp: (node) => node.matches(".who") && step(node, -1),
  " ": (node) => node.matches(".who") && node.closest(".member").querySelector("input").click(),
};
document.addEventListener("keydown", (event) => {
  const node = event.target;
  if (at("ask").open || !desk) return;
  if (node === at("search") && event.key === "Escape") { node.value = ""; render(null, true, true); }
  if (isText(node)) return;
  if ((event.ctrlKey || event.metaKey) && event.key.toLowerCase() === "z") {
    event.preventDefault();
    at(event.shiftKey ? "redo" : "undo").click();
  } else if (!event.ctrlKey && !event.metaKey && !event.altKey && keys[event.key]) {
    if (keys[event.key](node) !== false) event.preventDefault();
  }
});

function form(id, lineOf) {
  at(id).addEventListener("submit", (event) => {
    event.preventDefault();
    // What was sent is no longer what somebody types.
    for (const key of suggestions.keys()) {
      const [of, field] = key.split(" ");
      if (of === id) suggestions.set(key, at(id).elements[field].value);
    }
    call(lineOf(Object.fromEntries(new FormData(at(id)))));
  });
}
form("add-room", (f) => lines.addRoom(f.room, f.rate));
form("add-member", (f) => lines.addMember(f, codecOf(desk, f)));
form("add-source", lines.addSource);
form("add-slot", lines.addSlot);
// Somebody comes by one group, and then has a name. What comes from its address later is added from the unknown
// senders.
at("add-person").addEventListener("submit", async (event) => {
  event.preventDefault();
  const fields = at("add-person").elements, name = cut(fields.name.value), sees = fields.sees.checked;
  const { member, parts } = newcomer(desk, stats, { room: fields.room.value, address: fields.address.value, sees });
  if (!await callAll(parts, `add ${name || `member ${member}`}`)) return;
  fields.name.value = fields.address.value = "";
  if (name) await rename("member", member, name);
});
at("line-form").addEventListener("submit", (event) => {
  event.preventDefault();
  call(at("line").value.trim());
  at("line").value = "";
});
at("file").addEventListener("change", async ({ target }) => {
  const [file] = target.files;
  if (file) await restore(await file.text());
  target.value = "";
});
// Who is at the page, as the browser keeps it.
function takePerson(name) {
  set.me(personWord(name));
  if (past) renderHistory();
}
// A browser may refuse to keep anything.
try { at("person").value = localStorage.getItem("person") ?? ""; } catch (error) { console.warn(error); }
takePerson(at("person").value);
at("person").addEventListener("change", ({ target }) => {
  target.value = cut(target.value);
  takePerson(target.value);
  try { localStorage.setItem("person", target.value); } catch (error) { console.warn(error); }
});
at("search").addEventListener("input", () => render(null, true, true));
at("sort").addEventListener("change", () => render(null, true, true));
at("close-notice").addEventListener("click", closeNotice);
at("fold").addEventListener("click", () => {
  const are = desk?.rooms.every(isFolded);
  for (const room of desk?.rooms ?? []) folded.set(room, !are);
  render(null, true, true);
});
const dropGroup = () => { set.group([]); showGroup(); };
at("drop-group").addEventListener("click", dropGroup);
at("send-group").addEventListener("click", () => {
  const line = lines.group(group);
  at("collect").checked = false;
  dropGroup();
  call(line);
});
setInterval(judge, JUDGED_EVERY);
setInterval(watchStream, JUDGED_EVERY);
setInterval(count, EVERY);
document.addEventListener("visibilitychange", count);
show();
openStream();
"##;
