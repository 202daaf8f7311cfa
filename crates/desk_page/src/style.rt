//! The page's style sheet.
//! `tools/bridge make page` writes this file, from these files of web/:
//! page.css.

/// page.css
pub(crate) const PAGE_CSS: &[u8] = br##":root {
  color-scheme: light dark;
  --page: #f4f5f7; --card: #ffffff; --ink: #1b1f24; --soft: #5a6472; --line: #d5dae1;
  --accent: #0b57d0; --good: #146c2e; --bad: #b3261e; --warn: #8a5300; --drop: #dbe7ff; --odd: #fff1d6;
  --closed: 0rem;
}
@media (prefers-color-scheme: dark) {
  :root {
    --page: #14171b; --card: #1e2329; --ink: #e6e9ed; --soft: #9aa5b1; --line: #38414b;
    --accent: #8ab4f8; --good: #81c995; --bad: #f2b8b5; --warn: #fdd663; --drop: #26374f; --odd: #3a2f14;
  }
}
* { box-sizing: border-box; }
[hidden] { display: none !important; }
body { margin: 0; background: var(--page); color: var(--ink); font: 15px/1.4 system-ui, "DejaVu Sans", sans-serif; }
.closed { --closed: 2rem; }
#closed { position: sticky; top: 0; z-index: 4; height: var(--closed); margin: 0; padding: 0 1rem; overflow: hidden;
  background: var(--odd); color: var(--bad); font-weight: 600; line-height: 2rem; white-space: nowrap;
  text-overflow: ellipsis; }
header { display: grid; grid-template-columns: auto 16.5rem minmax(0, 1fr) auto; grid-template-rows: 2rem 1.6rem;
  gap: .3rem .8rem; align-items: center; padding: .4rem 1rem; height: 4.7rem; background: var(--card);
  border-bottom: 1px solid var(--line); position: sticky; top: var(--closed); z-index: 3; }
header > * { min-width: 0; }
h1 { font-size: 1.2rem; margin: 0; }
h2 { font-size: 1rem; margin: 0 0 .5rem; }
h3 { font-size: .95rem; margin: 0; }
#bar { position: sticky; top: calc(4.7rem + var(--closed)); z-index: 2; height: 2.1rem; display: flex;
  align-items: center; gap: .8rem; background: var(--page); }
#rooms-title { margin: 0; }
#status { margin: 0; color: var(--good); white-space: nowrap; overflow: hidden; text-overflow: ellipsis; }
#status.late, #status.connecting { color: var(--warn); }
#status.bad { color: var(--bad); font-weight: 600; }
.gone #board, .gone #detail, .gone .history-buttons { opacity: .6; }
.nameless [data-act="name"] { display: none; }
.finding { display: flex; gap: .3rem .7rem; align-items: center; font-size: .9em; color: var(--soft);
  white-space: nowrap; }
.finding input, .finding select { color: var(--ink); }
#search { width: 13rem; }
#fold { width: 6rem; }
.history-buttons { display: flex; gap: .5rem; }
.history-buttons button { width: 13rem; font-size: .92em; overflow: hidden; text-overflow: ellipsis;
  white-space: nowrap; text-align: left; }
#redo { width: 9rem; }
#sum { grid-column: 1 / -1; display: flex; gap: .5rem; align-items: center; white-space: nowrap; overflow: hidden;
  font-size: .92em; }
#sum > span { min-width: 4.6rem; color: var(--soft); }
.number { color: var(--soft); padding: 0 .6rem; height: 24px; font-size: .92em; }
.number b { font-weight: 400; }
.number.some b { color: var(--ink); font-weight: 700; }
.number[aria-pressed="true"]:not([data-of=""]) { background: var(--drop); border-color: var(--accent); }
footer { position: fixed; bottom: 0; left: 0; right: 0; height: 2.6rem; display: grid; z-index: 5;
  grid-template-columns: minmax(0, 1.6fr) auto minmax(0, 1fr); gap: .6rem; align-items: center; padding: 0 1rem;
  background: var(--card); border-top: 1px solid var(--line); }
footer p { margin: 0; font-size: .9em; line-height: 1.15rem; max-height: 2.3rem; overflow: auto;
  overflow-wrap: anywhere; }
#notice { padding-left: .6rem; border-left: 4px solid var(--bad); }
#notice.good { border-color: var(--good); }
footer .buttons { grid-column: 2; grid-row: 1; display: flex; gap: .3rem; }
#news { grid-column: 3; color: var(--soft); }
main { display: grid; grid-template-columns: minmax(0, 1fr) 23rem; gap: 1rem; padding: .2rem 1rem 3.4rem; }
#board { display: grid; gap: .5rem; grid-template-columns: minmax(0, 1fr); }
.room, aside > section { background: var(--card); border: 1px solid var(--line); border-radius: .5rem; }
aside > section { padding: .75rem; }
aside { display: grid; grid-template-columns: minmax(0, 1fr); gap: .7rem; align-content: start; overflow: auto;
  position: sticky; top: calc(5.1rem + var(--closed)); max-height: calc(100vh - 8.7rem - var(--closed)); }
.room.over, .room.over .head, .slot.over { background: var(--drop); outline: 2px dashed var(--accent); }
.head { display: grid; align-items: center; gap: 0 .5rem; padding: 0 .5rem; height: 32px;
  grid-template-columns: 24px minmax(8rem, 1.1fr) minmax(8rem, 22rem) minmax(0, .5fr) minmax(0, 1.2fr) 3.7rem 4.4rem; }
.head > * { min-width: 0; white-space: nowrap; }
.head h3, .head .count { overflow: hidden; text-overflow: ellipsis; }
.held { display: flex; gap: .3rem; align-items: center; justify-content: flex-end; }
.held > button { flex: none; }
.held > .tag { min-width: 0; overflow: hidden; text-overflow: ellipsis; }
.head .count { font-size: .82em; }
.grow { flex: 1; min-width: 0; }
.member, .columns { display: grid; gap: 0 .4rem; align-items: center; padding: 0 .5rem; white-space: nowrap;
  grid-template-columns: 14px 24px minmax(7rem, 1.3fr) 4.4rem repeat(4, 3.3rem) minmax(4rem, 1fr) 6.2rem 4.4rem; }
.columns { position: sticky; top: calc(6.8rem + var(--closed)); z-index: 2; height: 2rem; background: var(--page);
  color: var(--soft);
  font-size: .75rem; line-height: .9rem; margin: 0 1px; padding: 0 .5rem .2rem; align-items: start; }
.columns > * { overflow: hidden; text-overflow: ellipsis; min-width: 0; }
.columns small { display: block; font-size: 1em; }
.columns i { font-style: normal; }
.member { border-top: 1px solid var(--line); height: 25px; cursor: grab; contain: layout paint; position: relative; }
.member > * { overflow: hidden; text-overflow: ellipsis; min-width: 0; }
.named { display: flex; align-items: center; gap: .3rem; }
.named > .who { min-width: 0; overflow: hidden; text-overflow: ellipsis; }
.member .sees { padding-left: .5rem; }
.columns .sees { padding-left: .5rem; }
.named > .tag { flex: none; }
.figure { text-align: right; font-variant-numeric: tabular-nums; font-size: .88em; color: var(--soft); }
.columns .figure { font-size: 1em; }
.figure.bad, .figure.warn, .bad, .good { font-weight: 600; }
.bad { color: var(--bad); }
.good { color: var(--good); }
.level { height: 24px; color: var(--soft); background: linear-gradient(var(--good), var(--good)) no-repeat 0 9px,
  linear-gradient(var(--line), var(--line)) no-repeat 0 11px / 100% 2px; background-size: 0 6px, 100% 2px; }
.quiet > .level { background-image: linear-gradient(var(--soft), var(--soft)),
  linear-gradient(var(--line), var(--line)); }
.level:not([data-step]) { background: none; }
.level[data-step="1"] { background-size: 10% 6px, 100% 2px; }
.level[data-step="2"] { background-size: 20% 6px, 100% 2px; }
.level[data-step="3"] { background-size: 30% 6px, 100% 2px; }
.level[data-step="4"] { background-size: 40% 6px, 100% 2px; }
.level[data-step="5"] { background-size: 50% 6px, 100% 2px; }
.level[data-step="6"] { background-size: 60% 6px, 100% 2px; }
.level[data-step="7"] { background-size: 70% 6px, 100% 2px; }
.level[data-step="8"] { background-size: 80% 6px, 100% 2px; }
.level[data-step="9"] { background-size: 90% 6px, 100% 2px; }
.level[data-step="10"] { background-size: 100% 6px, 100% 2px; }
.spoken { position: absolute; width: 1px; height: 1px; overflow: hidden; clip-path: inset(50%); white-space: nowrap; }
.quiet .who bdi { color: var(--soft); font-weight: 400; }
.member.open { background: var(--drop); }
.member.odd, .head.odd, .member.trouble { background: var(--odd); }
.member.fresh { box-shadow: inset 3px 0 var(--accent); }
.left { opacity: .75; }
.left .who, .head.left h3, .left > .what, li.left { text-decoration: line-through; }
.left[class] [aria-disabled] { cursor: default; }
.state { text-align: center; font-size: .85em; }
.warn { color: var(--warn); }
.count b { font-weight: 600; }
.member > .small { width: 4.4rem; }
[aria-busy="true"] { background-image: repeating-linear-gradient(135deg, transparent 0 5px, var(--line) 5px 10px); }
input[type="checkbox"] { width: 16px; height: 24px; margin: 0 4px; cursor: pointer; vertical-align: middle; }
.pick { width: 24px; height: 24px; cursor: pointer; }
.tick { display: inline-flex; align-items: center; min-height: 24px; cursor: pointer; }
.who { border: 0; background: none; text-align: left; padding: 0 .2rem; height: 24px; font-weight: 600;
  cursor: pointer; }
.who bdi, .head bdi { unicode-bidi: isolate; }
.muted { color: var(--bad); text-decoration: line-through; }
.source[draggable="true"] { cursor: grab; border-bottom: 1px dotted var(--soft); }
.tag { color: var(--warn); border: 1px solid currentColor; border-radius: 1rem; padding: 0 .5rem; font-size: .82em; }
.tag.bad { color: var(--bad); font-weight: 600; }
.soft { color: var(--soft); font-size: .88em; font-weight: 400; }
button, input, select { font: inherit; color: inherit; background: var(--page); border: 1px solid var(--line);
  border-radius: .35rem; padding: .2rem .5rem; max-width: 100%; min-height: 24px; }
button { cursor: pointer; }
button:hover:enabled { border-color: var(--accent); }
button:disabled { color: var(--soft); cursor: default; }
button.small, select.small { padding: 0 .4rem; font-size: .85em; height: 24px; }
button.danger { color: var(--bad); }
button.fold { width: 24px; padding: 0; border: 0; background: none; }
:focus-visible { outline: 2px solid var(--accent); outline-offset: 1px; }
.member :focus-visible { outline-offset: -2px; }
#selected { display: flex; gap: .4rem; align-items: center; position: absolute; inset: 0 0 2px; white-space: nowrap;
  background: var(--drop); border-radius: .4rem; padding: 0 .6rem; overflow: hidden; }
.room { content-visibility: auto; }
#detail h3 { margin: .6rem 0 .2rem; color: var(--soft); font-size: .88em; }
#detail .title { display: grid; grid-template-columns: minmax(0, 1fr) auto auto; gap: .3rem; align-items: start; }
#detail h2 { overflow-wrap: anywhere; max-height: 4.2em; overflow: hidden; margin: 0; }
#detail .address { overflow-wrap: anywhere; margin: .2rem 0 .4rem; }
#detail .row { display: grid; grid-template-columns: minmax(0, 1fr); gap: .1rem .4rem; align-items: center;
  padding: .2rem 0; }
#detail .figures { display: grid; grid-auto-flow: column; grid-template-rows: auto auto; gap: 0 .4rem;
  grid-template-columns: 1.5fr repeat(4, minmax(0, 1fr)); margin: .2rem 0 .4rem; font-size: .88em; }
#detail .told { margin: 0; }
#detail .told, .slot .counted, #detail > .counted { white-space: nowrap; overflow: hidden; text-overflow: ellipsis; }
.figures dt { color: var(--soft); font-size: .92em; }
.plot { display: block; width: 100%; height: 20px; border-bottom: 1px solid var(--line); overflow: visible; }
.plot path { fill: none; stroke: currentColor; stroke-width: 1.2px; vector-effect: non-scaling-stroke; }
.figures dd { margin: 0; font-variant-numeric: tabular-nums; white-space: nowrap; }
#detail .row.slider { grid-template-columns: minmax(0, 1fr) 8rem auto; }
#detail > .soft { margin-right: .5rem; }
#detail .row > .what { justify-self: start; max-width: 100%; overflow: hidden; text-overflow: ellipsis;
  white-space: nowrap; }
.acts { display: flex; gap: .3rem; flex-wrap: wrap; }
.row .acts button { min-width: 3.4rem; }
#detail [data-key^="mute-of "] { width: 4.2rem; }
#detail [data-key^="pin-of "] { width: 3.8rem; }
#detail [data-key^="floor-of "] { width: 5.4rem; }
#detail .acts select { width: 8rem; }
.slot { border: 1px dashed var(--line); border-radius: .4rem; padding: .2rem .4rem; margin: .15rem 0; }
.add { display: flex; flex-wrap: wrap; gap: .4rem; align-items: end; padding-bottom: .6rem; margin-bottom: .6rem;
  border-bottom: 1px solid var(--line); }
.add:last-of-type { border: 0; margin: 0; padding: 0; }
.add label { display: grid; font-size: .85em; color: var(--soft); flex: 1 1 6rem; min-width: 0; }
.add .wide { flex-basis: 9rem; }
.add .whole { flex-basis: 100%; }
.add input, .add select { width: 100%; color: var(--ink); }
.add .tick { display: flex; gap: .3rem; }
.add .tick input { width: auto; }
input[type="range"] { width: 8rem; padding: 0; }
#strangers { list-style: none; margin: 0; padding: 0; max-height: 12rem; overflow: auto; }
#strangers li { padding: .25rem 0; border-top: 1px solid var(--line); overflow-wrap: anywhere; }
.source.silent::after { content: " \2716"; color: var(--warn); }
.source.lossy::after { content: " \26A0"; color: var(--warn); }
.you { display: grid; grid-template-columns: auto minmax(0, 1fr); gap: .4rem; align-items: center; font-size: .85em;
  color: var(--soft); margin-bottom: .3rem; }
.you input { color: var(--ink); min-height: 24px; }
#calls { list-style: none; margin: 0; padding: 0; max-height: 15rem; overflow: auto; }
#calls li, #collected li { padding: .25rem 0; border-top: 1px solid var(--line); overflow-wrap: anywhere; }
code { font: .92em ui-monospace, "DejaVu Sans Mono", monospace; }
.undone code { text-decoration: line-through; color: var(--soft); }
#calls .way { background: var(--odd); }
#calls .row { display: grid; grid-template-columns: minmax(0, 1fr); gap: .15rem; justify-items: start; }
button.revert { display: flex; align-items: center; white-space: nowrap; }
.revert > span { overflow: hidden; text-overflow: ellipsis; }
button.call { display: block; border: 0; background: none; padding: 0; text-align: left; width: 100%; }
.hint { color: var(--soft); font-size: .88em; margin: .3rem 0; }
.keys { display: grid; grid-template-columns: auto 1fr; gap: .1rem .8rem; margin: 0; font-size: .88em; }
.keys dd { margin: 0; color: var(--soft); }
dialog { border: 1px solid var(--line); border-radius: .5rem; background: var(--card); color: var(--ink);
  max-width: 30rem; }
dialog input { width: 100%; }
dialog p, dialog h2 { overflow-wrap: anywhere; }
/* Up to 60rem the list has the whole width, and above that less. */
@media (max-width: 64rem), (min-width: 60.01rem) and (max-width: 88rem) {
  .head { grid-template-columns: 24px minmax(6rem, 1.1fr) 15rem minmax(0, .5fr) minmax(0, 1.3fr) 3.7rem 4.4rem; }
}
@media (max-width: 54rem), (min-width: 60.01rem) and (max-width: 78rem) {
  .member, .columns {
    grid-template-columns: 14px 24px minmax(7rem, 1.3fr) 4.4rem repeat(4, 3.3rem) minmax(4rem, 1fr) 4.4rem; }
  .member .sends, .columns .sends, .head .held { display: none; }
  .head { grid-template-columns: 24px minmax(6rem, 1fr) minmax(0, 1.3fr) 3.7rem 4.4rem; }
}
@media (max-width: 42rem), (min-width: 60.01rem) and (max-width: 66rem) {
  .member, .columns { grid-template-columns: 14px 24px minmax(0, 1fr) 4.4rem repeat(4, 3.3rem) 4.4rem; }
  .member .sees, .columns .sees { display: none; }
}
@media (max-width: 34rem) {
  .member, .columns { grid-template-columns: 14px 24px minmax(0, 1fr) 3.5rem 2.5rem 4.4rem; }
  .columns { font-size: .7rem; }
  .columns .out, .columns .jitter, .columns .trip, .columns i, .member > .jitter, .member > .trip, .member > .out,
  .member.loses-out > .in, .who bdi + .soft { display: none; }
  .member.loses-out > .out { display: block; }
  .named > .tag { padding: 0 .25rem; font-size: .72em; }
  .head { grid-template-columns: 24px minmax(0, 1fr) 3.7rem 4.4rem; grid-template-rows: 26px 20px; height: 50px; }
  .head .count { grid-row: 2; grid-column: 2 / -1; }
}
@media (max-width: 60rem) {
  header { grid-template-columns: auto minmax(0, 1fr) auto; grid-template-rows: 2rem 2rem 1.6rem; height: 7rem; }
  .finding { grid-row: 2; grid-column: 1 / -1; }
  .history-buttons { grid-column: 3; }
  .history-buttons button { width: 10rem; }
  #redo { width: 7rem; }
  .closed { --closed: 2.6rem; }
  #closed { line-height: 1.3rem; white-space: normal; }
  #bar { top: calc(7rem + var(--closed)); }
  .columns { top: calc(9.1rem + var(--closed)); }
  #sum > span { display: none; }
  main { grid-template-columns: minmax(0, 1fr); }
  aside { position: static; max-height: none; overflow: visible; }
  #detail { position: fixed; left: 0; right: 0; bottom: 2.6rem; max-height: 60vh; overflow: auto; z-index: 4;
    border-radius: .6rem .6rem 0 0; box-shadow: 0 -2px 12px rgb(0 0 0 / .3); }
}
@media (max-width: 40rem) {
  main { padding: .2rem .4rem 4.4rem; }
  header { padding: .3rem .4rem; grid-template-columns: auto minmax(0, 1fr); height: 9.3rem;
    grid-template-rows: 1.6rem 2rem 2rem 2.1rem; }
  .history-buttons { grid-row: 3; grid-column: 1 / -1; }
  .history-buttons button { width: auto; flex: 1.4 1 0; }
  #redo { flex: 1 1 0; }
  .finding label > span { display: none; }
  .finding { gap: .3rem; }
  .finding label:first-child { flex: 1; min-width: 0; }
  #search { width: 100%; }
  #fold { width: 5.4rem; }
  #sum { gap: .3rem; }
  .number { min-width: 0; flex: 1 1 auto; padding: 0 .1rem; height: 2rem; display: grid; line-height: 1rem; }
  .number span { font-size: .8em; }
  .closed { --closed: 5.2rem; }
  #bar { top: calc(9.3rem + var(--closed)); }
  .columns { top: calc(11.4rem + var(--closed)); }
  footer { height: 3.6rem; grid-template-columns: minmax(0, 1fr) auto; padding: 0 .4rem; }
  footer p { max-height: 3.4rem; }
  footer .buttons { flex-direction: column; gap: 1px; }
  footer .buttons button { padding: 0 .5rem; white-space: nowrap; }
  #news { grid-column: 1 / -1; grid-row: 1; }
  #notice:not([hidden]) ~ #news { display: none; }
  #detail { bottom: 3.6rem; }
}
"##;
