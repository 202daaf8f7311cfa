//! The page in HTML, as far as its token and behind it.
//! `tools/bridge make page` writes this file, from these files of web/:
//! page.html.

/// The page as far as its token.
pub(crate) const HTML_BEFORE: &[u8] = br##"<!doctype html>
<html lang="en">
<head>
<meta charset="utf-8">
<meta name="viewport" content="width=device-width, initial-scale=1">
<title>Desk</title>
<link rel="stylesheet" href="/page.css">
<script type="module" src="/advice.js"></script>
<script type="module" src="/lines.js"></script>
<script type="module" src="/overview.js"></script>
<script type="module" src="/kept.js"></script>
<script type="module" src="/levels.js"></script>
<script type="module" src="/stats.js"></script>
<script type="module" src="/people.js"></script>
<script type="module" src="/news.js"></script>
<script type="module" src="/plots.js"></script>
<script type="module" src="/rules.js"></script>
<script type="module" src="/history.js"></script>
<script type="module" src="/known.js"></script>
<script type="module" src="/view.js"></script>
<script type="module" src="/rows.js"></script>
<script type="module" src="/page.js"></script>
<script type="module" src="/taking.js"></script>
<script type="module" src="/link.js"></script>
<script type="module" src="/stream.js"></script>
<script type="module" src="/counts.js"></script>
<script type="module" src="/places.js"></script>
<script type="module" src="/drawing.js"></script>
<script type="module" src="/hands.js"></script>
<meta name="desk-token" content=""##;

/// The page behind its token.
pub(crate) const HTML_AFTER: &[u8] = br##"">
</head>
<body>
<p id="closed" role="status"></p>
<header>
  <h1>Desk</h1>
  <p id="status" role="status" aria-live="polite">Asking the bridge</p>
  <div class="finding" role="search">
    <label><span>Search</span> <input id="search" type="search" autocomplete="off"
      placeholder="name, number or address" aria-keyshortcuts="/"></label>
    <label><span>Sort</span> <select id="sort"><option value="trouble">by trouble</option>
      <option value="speaking">by who speaks</option><option value="number">by number</option>
      <option value="name">by name</option><option value="members">by members</option></select></label>
    <button id="fold" type="button">Fold all</button>
  </div>
  <div class="history-buttons" id="history-buttons">
    <button id="undo" type="button" data-key="undo" aria-keyshortcuts="Control+Z" disabled>Undo</button>
    <button id="redo" type="button" data-key="redo" aria-keyshortcuts="Control+Shift+Z" disabled>Redo</button>
  </div>
  <div id="sum" role="group" aria-label="The whole bridge"></div>
</header>
<main id="main">
  <section id="rooms" aria-labelledby="rooms-title">
    <div id="bar"><h2 id="rooms-title">Rooms</h2><button id="waiting" type="button" hidden></button>
      <div id="selected" role="group" aria-label="Selected members" hidden></div></div>
    <div id="columns" class="columns" aria-hidden="true"><span></span><span></span><span>Member</span>
      <span>Speaking<small id="span"></small></span><span class="figure">Loss<i> in</i><small>%</small></span>
      <span class="figure jitter">Jitter<small>ms</small></span>
      <span class="figure out">Loss out<small>%</small></span><span class="figure trip">Trip<small>ms</small></span>
      <span class="sees">Sees</span><span class="sends">Sends</span></div>
    <div id="board"></div>
    <p id="nothing" class="soft" hidden></p>
  </section>
  <aside id="aside">
    <section id="detail" aria-labelledby="detail-title" hidden></section>
    <section id="unknown" aria-labelledby="unknown-title" hidden>
      <h2 id="unknown-title">Unknown senders</h2>
      <ol id="strangers"></ol>
    </section>
    <section aria-labelledby="calls-title">
      <h2 id="calls-title">History</h2>
      <label class="you"><span>Your name</span> <input id="person" autocomplete="nickname" dir="auto" spellcheck="false"
        placeholder="page, as long as you say none"></label>
      <p id="no-calls" class="hint">Nothing was changed yet.</p>
      <ol id="calls"></ol>
    </section>
    <section aria-labelledby="add-title">
      <h2 id="add-title">Add</h2>
      <form id="add-person" class="add" aria-label="Add somebody">
        <label>Name <input name="name" autocomplete="off" dir="auto"></label>
        <label>Room <select name="room" aria-label="Room of the newcomer"></select></label>
        <label class="whole">Address <input name="address" aria-label="Address of the newcomer"
          placeholder="127.0.0.1:6000" required></label>
        <label class="tick"><input name="sees" type="checkbox" checked> Sees a picture</label>
        <button>Add somebody</button></form>
      <form id="add-room" class="add" aria-label="Add a room">
        <label>Room <input name="room" inputmode="numeric" required></label>
        <label class="wide">Rate <select name="rate"><option value="8000">8000 Hz, speech</option>
          <option value="44100">44100 Hz, music</option></select></label>
        <button>Add room</button></form>
      <form id="add-member" class="add" aria-label="Add a member">
        <label>Member <input name="member" inputmode="numeric" required></label>
        <label>Room <select name="room" aria-label="Room of the member"></select></label>
        <label class="whole">Address <input name="address" placeholder="127.0.0.1:6000" required></label>
        <label class="wide">Codec <select name="codec"><option value="">as the room</option>
          <option>pcmu</option><option>l16</option></select></label>
        <label>Mix SSRC <input name="ssrc" inputmode="numeric" required></label>
        <button>Add member</button></form>
      <form id="add-source" class="add" aria-label="Add a source">
        <label>Source SSRC <input name="ssrc" inputmode="numeric" required></label>
        <label>Member <select name="member" aria-label="Member of the source"></select></label>
        <label>Kind <select name="kind"><option>audio</option><option>video</option></select></label>
        <button>Add source</button></form>
      <form id="add-slot" class="add" aria-label="Add a slot">
        <label>Slot SSRC <input name="ssrc" inputmode="numeric" required></label>
        <label>Member <select name="member" aria-label="Member of the slot"></select></label>
        <label>Index <input name="index" inputmode="numeric" value="0" required></label>
        <button>Add slot</button></form>
    </section>
    <section aria-labelledby="line-title">
      <h2 id="line-title">Line</h2>
      <form id="line-form" class="add" aria-label="Send a line"><label>What the bridge is told
        <input id="line" autocomplete="off" spellcheck="false" maxlength="4096"></label>
        <button>Send</button></form>
      <p class="hint">A button shows its line when you point at it or come to it by Tab.</p>
      <p><label class="tick"><input id="collect" type="checkbox"> Collect clicks into a group</label></p>
      <ol id="collected" hidden></ol>
      <p id="group-buttons" hidden><button id="send-group" type="button">Send the group</button>
        <button id="drop-group" type="button">Drop it</button></p>
    </section>
    <section aria-labelledby="keep-title">
      <h2 id="keep-title">Desk as a file</h2>
      <button type="button" data-act="save">Save the desk</button>
      <button type="button" data-act="restore">Restore</button>
      <input id="file" type="file" aria-label="A saved desk" hidden>
    </section>
    <section aria-labelledby="keys-title">
      <h2 id="keys-title">Keys</h2>
      <dl class="keys"><dt>/</dt><dd>search</dd><dt>Up, Down</dt><dd>another member</dd>
        <dt>Enter</dt><dd>open a member</dd><dt>Space</dt><dd>select a member</dd><dt>m</dt><dd>mute, unmute</dd>
        <dt>n</dt><dd>the next member in trouble</dd>
        <dt>Ctrl+Z</dt><dd>undo</dd><dt>Ctrl+Shift+Z</dt><dd>redo</dd></dl>
    </section>
  </aside>
</main>
<footer><p id="notice" role="status" hidden></p>
  <div class="buttons"><button id="show-call" type="button" data-act="show-call" hidden></button>
    <button id="close-notice" type="button" hidden>Close</button></div>
  <p id="news" role="status"></p></footer>
<dialog id="ask" aria-labelledby="ask-title"><form method="dialog"><h2 id="ask-title"></h2><p id="ask-text"></p>
  <label id="ask-label" hidden><span>Name</span> <input id="ask-input" autocomplete="off" dir="auto"></label>
  <p class="buttons"><button id="ask-yes" value="yes">Yes</button>
    <button id="ask-no" value="no" formnovalidate>Cancel</button></p></form></dialog>
</body>
</html>
"##;
