//! What every page has. `tools/page` writes this file from `page.html`.

/// What a page begins with, up to the report as text.
pub const BEGINNING: &str = "<!doctype html>
<html lang=\"en\">
<head>
<meta charset=\"utf-8\">
<meta name=\"viewport\" content=\"width=device-width, initial-scale=1\">
<meta http-equiv=\"Content-Security-Policy\"
 content=\"default-src 'none'; script-src 'unsafe-inline'; style-src 'unsafe-inline'\">
<title>Calls below a root</title>
<style>
:root {
  color-scheme: light dark;
  --paper: #fff; --ink: #1c1f26; --faint: #565d6b; --line: #8a93a5; --shade: #e3e0d8; --now: #fff3bf;
  --focus: #0b57d0; --frame: #b08900; --good: #1a7f37; --failed: #8a5a00; --bad: #c0182b;
  --actor0: #0b57d0; --actor1: #a8430a; --actor2: #6a1b9a; --actor3: #00695c;
}
@media screen and (prefers-color-scheme: dark) {
  :root {
    --paper: #14171c; --ink: #e4e7ec; --faint: #a8b0bd; --line: #667085; --shade: #2b2f37; --now: #453a10;
    --focus: #8ab4ff; --frame: #d4a72c; --good: #57d079; --failed: #e0b341; --bad: #ff8f87;
    --actor0: #8ab4ff; --actor1: #ffa970; --actor2: #d9b3ff; --actor3: #5fd7c0;
  }
}
body { margin: 1rem; background: var(--paper); color: var(--ink); font: 14px/1.45 system-ui, sans-serif; }
h1 { font-size: 1.25rem; margin: 0 0 .5rem; }
h2 { font-size: 1rem; margin: .75rem 0 .25rem; }
pre, td, th, li, output { font-family: ui-monospace, monospace; overflow-wrap: anywhere; }
pre { white-space: pre-wrap; font-size: 12px; }
ul { list-style: none; margin: 0; padding: 0; }
[hidden] { display: none; }
:focus-visible { outline: 3px solid var(--focus); outline-offset: 2px; }
button { font: inherit; min-width: 2.75rem; padding: .2rem .6rem; }
kbd { border: 1px solid var(--line); border-radius: .2rem; padding: 0 .3rem; font-family: ui-monospace, monospace; }
#legend { margin: .5rem 0; }
#legend ul { list-style: disc; padding: .2rem 0 .2rem 1.2rem; }
#legend li { font-family: inherit; }
#buttons { display: flex; flex-wrap: wrap; gap: .3rem; }
#controls { display: flex; flex-wrap: wrap; gap: .5rem 1rem; align-items: center; margin: .5rem 0; }
#moment { flex: 1 1 14rem; min-width: 10rem; }
#now { flex: 1 1 100%; min-height: 1.45em; }
#panes { display: grid; grid-template-columns: minmax(0, 3fr) minmax(0, 2fr); gap: 1rem; }
@media (max-width: 50rem) { #panes { grid-template-columns: minmax(0, 1fr); } }
.pane { overflow: auto; max-height: 75vh; border: 1px solid var(--line); }
table { border-collapse: collapse; width: 100%; table-layout: fixed; }
th, td { border-left: 1px solid var(--line); padding: .1rem .4rem; text-align: left; vertical-align: top; }
td a { color: inherit; text-decoration: none; }
td a:hover { text-decoration: underline; }
th { position: sticky; top: 0; background: var(--paper); border-bottom: 1px solid var(--line); }
th:first-child, td:first-child { border-left: 0; width: 3.5rem; text-align: right; }
@media (max-width: 30rem) {
  #steps { font-size: 12px; }
  th:first-child, td:first-child { width: 2.4rem; }
}
tbody tr { cursor: pointer; }
.later { color: var(--faint); font-style: italic; }
tr.now td, #legend .now { background: var(--now); }
tr.now td:first-child::before { content: \"> \"; }
.good { color: var(--good); }
.failed { color: var(--failed); }
.bad { color: var(--bad); font-weight: bold; }
#heading-pane { max-height: 25vh; padding: .2rem .4rem; }
#heading li, #outcomes li li { white-space: pre-wrap; }
#numbers li { display: inline-block; margin-right: 1.5rem; }
#outcomes-pane { max-height: 38vh; }
#outcomes > li { padding: .1rem .4rem; }
#outcomes > li + li { border-top: 1px solid var(--line); }
#outcomes > li.chosen { background: var(--now); }
#outcomes li li { padding-left: 1.9rem; font-size: .86em; color: var(--faint); }
#tree li, #gone li { border-left: 4px solid transparent; padding: .05rem .4rem .05rem calc(.4rem + var(--depth, 0) * 1.25rem); }
#tree li.outside, #legend .outside { background: var(--shade); border-left: 4px double var(--line); }
.changed .name { background: var(--now); outline: 1px solid var(--frame); }
.node { color: var(--faint); font-size: .86em; }
.mark { display: inline-block; border: 1px solid currentColor; border-radius: .6rem; padding: 0 .4rem; margin-left: .4rem; font-size: .86em; }
.actor0 { color: var(--actor0); } .actor1 { color: var(--actor1); }
.actor2 { color: var(--actor2); } .actor3 { color: var(--actor3); }
.unseen { position: absolute; width: 1px; height: 1px; overflow: hidden; clip-path: inset(50%); }
@media print {
  :root { color-scheme: light; }
  body { margin: 0; font-size: 11px; }
  #controls label, #controls input, #controls select, #buttons { display: none; }
  .pane, #heading-pane, #outcomes-pane { overflow: visible; max-height: none; }
  #properties button { display: none; }
  #panes { display: block; }
  tr, li { break-inside: avoid; }
  th { position: static; }
  tr.later { color: inherit; font-style: normal; }
  * { print-color-adjust: exact; -webkit-print-color-adjust: exact; }
}
</style>
</head>
<body>
<main>
<h1>Calls below a root</h1>
<details id=\"legend\" hidden>
<summary>Legend and keys</summary>
<ul>
<li><span class=\"good\">A check says yes, or a call did what it was to do.</span> <span class=\"failed\">A call failed.</span>
<span class=\"bad\">What is outside of the actor's root is opened or held, or a check says no.</span></li>
<li><span class=\"now\">&gt; The event that is shown.</span> <span class=\"later\">An event after it.</span> A line without a
number says where what the actor holds stands by then. Where a number is missing, an actor closed a handle.</li>
<li><span class=\"outside\">Outside of the root that you choose.</span> <span class=\"changed\"><span class=\"name\">Changed by the
event.</span></span> <span class=\"mark actor0\">actor 0 handle 4</span> An open handle.</li>
<li>Keys: <kbd>&larr;</kbd> <kbd>&rarr;</kbd> the event before or after, <kbd>Home</kbd> the beginning, <kbd>End</kbd>
the last event, <kbd>p</kbd> plays or pauses<span id=\"outcome-keys\" hidden>, <kbd>o</kbd> <kbd>O</kbd> the next or the
previous outcome</span>. <kbd>Tab</kbd> goes from part to part.</li>
<li>Links: an address that ends in <code id=\"link-form\">#12</code> shows the page <span id=\"link-meaning\">after event
12</span>. Each number links to its event.</li>
</ul>
</details>
<section id=\"survey\" aria-labelledby=\"survey-name\" hidden>
<h2 id=\"survey-name\">What all schedules come to</h2>
<ul id=\"numbers\"></ul>
<ul id=\"properties\"></ul>
<h2 id=\"outcomes-name\">The outcomes, each played by its least schedule</h2>
<div class=\"pane\" id=\"outcomes-pane\" tabindex=\"0\" role=\"region\" aria-labelledby=\"outcomes-name\">
<ul id=\"outcomes\" role=\"radiogroup\" aria-labelledby=\"outcomes-name\"></ul>
</div>
<p id=\"unplayed\" hidden></p>
</section>
<div id=\"shown\" hidden>
<h2 id=\"heading-name\">What the actors called for, and how it ended</h2>
<div class=\"pane\" id=\"heading-pane\" tabindex=\"0\" role=\"region\" aria-labelledby=\"heading-name\">
<ul id=\"heading\"></ul>
</div>
<div id=\"controls\">
<label for=\"moment\">Event</label>
<input id=\"moment\" type=\"range\" min=\"-1\" value=\"-1\" step=\"1\">
<div id=\"buttons\" role=\"group\" aria-label=\"Steps\">
<button id=\"first\" aria-keyshortcuts=\"Home\">First</button>
<button id=\"previous\" aria-keyshortcuts=\"ArrowLeft\">Previous</button>
<button id=\"play\" aria-keyshortcuts=\"p\">Play</button>
<button id=\"next\" aria-keyshortcuts=\"ArrowRight\">Next</button>
<button id=\"last\" aria-keyshortcuts=\"End\">Last</button>
</div>
<label for=\"root\">Shade what is outside of the root of</label>
<select id=\"root\"></select>
<output id=\"now\" for=\"moment\" aria-live=\"polite\"></output>
</div>
<div id=\"panes\">
<section aria-labelledby=\"steps-name\">
<h2 id=\"steps-name\">Who did what, told as things stood just before</h2>
<div class=\"pane\" id=\"steps\" tabindex=\"0\" role=\"region\" aria-labelledby=\"steps-name\"></div>
</section>
<section aria-labelledby=\"tree-name\">
<h2 id=\"tree-name\">The tree after this event</h2>
<div class=\"pane\" id=\"tree-pane\" tabindex=\"0\" role=\"region\" aria-labelledby=\"tree-name\">
<ul id=\"tree\"></ul>
<div id=\"gone-part\"><h2>Held, and standing nowhere any more</h2><ul id=\"gone\"></ul></div>
</div>
</section>
</div>
</div>
<noscript><p>A script of this page shows the run moment by moment, or of an exploration the least run of each of the
first 64 outcomes. It doesn't run here, so this is the report as text.</p></noscript>
<details id=\"text\" open>
<summary>The report as text</summary>
<pre>
";

/// What stands behind the report as text, before the runs.
pub const RUNS: &str = "</pre>
</details>
</main>
";

/// What stands before the report of a run as JSON.
pub const REPORT: &str = "<script type=\"application/json\" class=\"report\">";

/// What stands between the report of a run and its picture.
pub const PICTURE: &str = "</script>
<script type=\"application/json\" class=\"picture\">";

/// What stands behind the picture of a run.
pub const RUN_END: &str = "</script>
";

/// What a page ends with: the script that shows the picture and the tree of each moment.
pub const END: &str = "<script>
(() => {
  'use strict';
  const find = (id) => document.getElementById(id);

  // The report as text, and whether that is what explore prints.
  const text = find('text').querySelector('pre').textContent;
  const isSurvey = text.startsWith('schedules ');

  // The run that is shown: its place among the runs, its report, its picture, and the nodes of the actors' roots.
  let chosen = 0;
  let report;
  let picture;
  let roots;

  // What plays the run, and what writes the address, while there is such a timer.
  let player;
  let writer;

  // An element with a text, which is never read as markup.
  const make = (tag, text, name) => {
    const it = document.createElement(tag);
    it.textContent = text;
    it.className = name || '';
    return it;
  };

  // The tree after an event: that of the beginning, which is event -1, and what each event up to that one changed.
  const treeAfter = (number) => {
    const nodes = new Map();
    const handles = new Map();
    for (const change of [report, ...report.events.slice(0, number + 1)]) {
      for (const [node, kind, parent, name] of change.nodes) {
        nodes.set(node, { kind, parent, name });
      }
      for (const [handle, actor, node] of change.handles) {
        if (actor === undefined) {
          handles.delete(handle);
        } else {
          handles.set(handle, { actor, node });
        }
      }
    }
    return { nodes, handles };
  };

  // The bytes of a name, by which names are ordered.
  const bytesOf = (name) => name.replace(/\\\\x(..)/g, (_, digits) => String.fromCharCode(parseInt(digits, 16)));

  // The nodes of each directory, by their names.
  const entriesOf = (nodes) => {
    const entries = new Map();
    for (const [node, it] of nodes) {
      if (it.parent !== undefined) {
        entries.set(it.parent, [...(entries.get(it.parent) || []), { node, key: bytesOf(it.name) }]);
      }
    }
    for (const own of entries.values()) {
      own.sort((a, b) => (a.key < b.key ? -1 : 1));
    }
    return entries;
  };

  // What stands in the tree from the top down: each node with its depth, and whether it is a root or stands below it.
  const standing = (nodes, root) => {
    const entries = entriesOf(nodes);
    const rows = [];
    const left = [{ node: 0, depth: 0, inside: root === 0 }];
    while (left.length > 0) {
      const row = left.pop();
      rows.push(row);
      const own = entries.get(row.node) || [];
      for (let at = own.length - 1; at >= 0; at -= 1) {
        const node = own[at].node;
        left.push({ node, depth: row.depth + 1, inside: row.inside || node === root });
      }
    }
    return rows;
  };

  // A node with its name, its number, and a mark for each handle that is open on it.
  const item = (tree, node, held) => {
    const it = tree.nodes.get(node);
    const li = make('li', '');
    const sign = it.kind === 'dir' ? '/' : it.kind === 'link' ? ' (link)' : '';
    li.append(make('span', (it.name || '') + sign, 'name'), ' ', make('span', `node ${node}`, 'node'));
    roots.forEach((root, actor) => {
      if (root === node) {
        li.append(make('span', `root of actor ${actor}`, `mark actor${actor}`));
      }
    });
    for (const [handle, actor] of held.get(node) || []) {
      if (handle >= roots.length) {
        li.append(make('span', `actor ${actor} handle ${handle}`, `mark actor${actor}`));
      }
    }
    return li;
  };

  // The open handles of each node.
  const heldIn = (tree) => {
    const held = new Map();
    for (const [handle, { actor, node }] of tree.handles) {
      held.set(node, [...(held.get(node) || []), [handle, actor]]);
    }
    return held;
  };

  const showTree = (number, actor) => {
    const tree = treeAfter(number);
    const held = heldIn(tree);
    const { nodes } = report.events[number] || { nodes: [] };
    const changed = new Set(nodes.map(([node]) => node));
    const rows = standing(tree.nodes, roots[actor]);
    const seen = new Set(rows.map((row) => row.node));
    find('tree').replaceChildren(...rows.map(({ node, depth, inside }) => {
      const li = item(tree, node, held);
      li.style.setProperty('--depth', Math.min(depth, 40));
      li.classList.toggle('changed', changed.has(node));
      if (!inside) {
        li.classList.add('outside');
        li.append(make('span', ', outside', 'unseen'));
      }
      return li;
    }));
    const gone = [...held.keys()].filter((node) => !seen.has(node));
    find('gone').replaceChildren(...gone.map((node) => item(tree, node, held)));
    find('gone-part').hidden = gone.length === 0;
  };

  // The number of the last event.
  const last = () => report.events.length - 1;

  // An event in words: those of its line, or of the report where a handle was closed.
  const toldOf = (number) => {
    if (number < 0) {
      return 'as the run begins';
    }
    const { actor, step, answer } = report.events[number];
    const { text: words } = picture.lines.find(({ moment }) => moment === number) || { text: `${step} = ${answer}` };
    return `event ${number} of ${last()}: actor ${actor}: ${words}`;
  };

  // The last event up to that one which has a row.
  const rowOf = (number) => {
    const rows = picture.lines.map(({ moment }) => moment ?? -1);
    return Math.max(-1, ...rows.filter((it) => it <= number));
  };

  const showEvent = (number) => {
    const shown = rowOf(number);
    for (const row of document.querySelectorAll('#steps tbody tr')) {
      const at = Number(row.dataset.event);
      row.classList.toggle('now', at === shown);
      row.classList.toggle('later', at > number);
      if (at === shown) {
        row.setAttribute('aria-current', 'step');
        row.scrollIntoView({ block: 'nearest' });
      } else {
        row.removeAttribute('aria-current');
      }
    }
    find('now').textContent = toldOf(number);
    find('moment').setAttribute('aria-valuetext', find('now').textContent);
  };

  // The address of an event: its number, or `begin`; in an exploration behind that of the outcome.
  const addressOf = (number) => `#${isSurvey ? `${chosen}/` : ''}${number < 0 ? 'begin' : number}`;

  const current = () => Number(find('moment').value);

  // The address follows when no other event is shown for a while: browsers refuse many addresses at once.
  const show = () => {
    showEvent(current());
    showTree(current(), Number(find('root').value));
    clearTimeout(writer);
    writer = setTimeout(() => history.replaceState(null, '', addressOf(current())), 300);
  };

  // Shows an event, or the nearest one that there is.
  const goTo = (number) => {
    find('moment').value = number;
    show();
  };

  const pause = () => {
    clearInterval(player);
    player = undefined;
    find('play').textContent = 'Play';
  };

  const playOn = () => {
    goTo(current() + 1);
    if (current() === last()) {
      pause();
    }
  };

  const playOrPause = () => {
    if (player !== undefined) {
      pause();
      return;
    }
    if (current() === last()) {
      goTo(-1);
    }
    player = setInterval(playOn, 800);
    find('play').textContent = 'Pause';
  };

  // The number of an event, which links to it. Its row has keys of its own, so Tab passes the link by.
  const numberCell = (number) => {
    const cell = make('td', '');
    if (number !== null) {
      const link = make('a', number);
      link.href = addressOf(number);
      link.tabIndex = -1;
      cell.append(link);
    }
    return cell;
  };

  // A row for each line of the picture. A line without a moment is a note on the event before it.
  const stepRows = () => {
    let event = -1;
    return picture.lines.map((line) => {
      event = line.moment ?? event;
      const row = make('tr', '');
      row.dataset.event = event;
      row.append(numberCell(line.moment));
      for (let actor = 0; actor < picture.actors; actor += 1) {
        row.append(make('td', actor === line.actor ? line.text : '', actor === line.actor ? line.tone : ''));
      }
      row.addEventListener('click', () => goTo(Number(row.dataset.event)));
      return row;
    });
  };

  // The columns, the heading and the controls of a run, at its end.
  const openRun = (at) => {
    pause();
    chosen = at;
    report = JSON.parse(document.querySelectorAll('script.report')[at].textContent);
    picture = JSON.parse(document.querySelectorAll('script.picture')[at].textContent);
    roots = report.handles.slice(0, picture.actors).map(([, , node]) => node);
    const table = make('table', '');
    const names = make('tr', '');
    const head = make('thead', '');
    const body = make('tbody', '');
    names.append(make('th', ''));
    find('root').replaceChildren();
    for (let actor = 0; actor < picture.actors; actor += 1) {
      names.append(make('th', `actor ${actor}`, `actor${actor}`));
      const choice = make('option', `actor ${actor}`);
      choice.value = actor;
      find('root').append(choice);
    }
    for (const cell of names.children) {
      cell.scope = 'col';
    }
    head.append(names);
    body.append(...stepRows());
    table.append(head, body);
    find('steps').replaceChildren(table);
    find('heading').replaceChildren(...picture.heading.map(({ tone, text }) => make('li', text, tone)));
    find('moment').max = last();
    goTo(last());
  };

  // What explore prints: numbers, a block for each outcome, and the lines of conditions and of properties.
  const surveyed = () => {
    const survey = { numbers: [], outcomes: [], properties: [] };
    for (const line of text.split('\\n').filter((it) => it !== '')) {
      const [, told, schedule] = line.match(/^outcome (\\d+ schedules .* schedule (\\S+))$/) || [];
      if (told !== undefined) {
        survey.outcomes.push({ told, schedule, lines: [] });
      } else if (/^(when|never|always) /.test(line)) {
        survey.properties.push(line);
      } else if (survey.outcomes.length > 0) {
        survey.outcomes[survey.outcomes.length - 1].lines.push(line);
      } else {
        survey.numbers.push(line);
      }
    }
    return survey;
  };

  const choose = (at) => {
    for (const [k, li] of [...find('outcomes').children].entries()) {
      li.classList.toggle('chosen', k === at);
      li.querySelector('input').checked = k === at;
    }
    openRun(at);
  };

  // Chooses the outcome so many places on, if there is one that is played.
  const chooseBy = (step) => {
    const radio = document.querySelectorAll('#outcomes input:enabled')[chosen + step];
    if (radio) {
      choose(chosen + step);
      radio.focus();
    }
  };

  // Shows what the address says, if it says anything: `#12`, or `#3/12` in an exploration.
  const follow = () => {
    const [, outcome, number] = location.hash.match(/^#(?:(\\d+)\\/)?(\\d+|begin)$/) || [];
    const at = Number(outcome || 0);
    if (number === undefined || at >= document.querySelectorAll('script.report').length) {
      return;
    }
    if (at !== chosen) {
      choose(at);
    }
    goTo(number === 'begin' ? -1 : Number(number));
  };

  const steps = {
    first: () => goTo(-1),
    previous: () => goTo(current() - 1),
    play: playOrPause,
    next: () => goTo(current() + 1),
    last: () => goTo(last()),
  };

  const keys = {
    Home: steps.first, ArrowLeft: steps.previous, p: playOrPause, ArrowRight: steps.next, End: steps.last,
    o: () => chooseBy(1), O: () => chooseBy(-1),
  };

  // A control that has a meaning of its own for a key keeps it.
  const onKey = (event) => {
    const own = event.key.startsWith('Arrow') ? 'select, input' : 'select';
    const isOwn = event.ctrlKey || event.altKey || event.metaKey || event.target.matches(own);
    if (!isOwn && Object.hasOwn(keys, event.key)) {
      event.preventDefault();
      keys[event.key]();
    }
  };

  // An outcome of the list. One that isn't played can't be chosen.
  const outcomeItem = ({ told, lines }, at, played) => {
    const li = make('li', '');
    const label = make('label', '');
    const radio = make('input', '');
    radio.type = 'radio';
    radio.name = 'outcome';
    radio.disabled = at >= played;
    radio.addEventListener('change', () => choose(at));
    label.append(radio, ` outcome ${told}`);
    const own = make('ul', '');
    own.append(...lines.map((line) => make('li', line)));
    li.append(label, own);
    return li;
  };

  // The line of a property, with a button that plays the schedule by which it fails, where that is an outcome's.
  const propertyItem = (line, outcomes, played) => {
    const [, failing] = line.match(/ = fails .* schedule (\\S+)$/) || [];
    const li = make('li', line, failing !== undefined ? 'bad' : line.endsWith(' = holds') ? 'good' : '');
    const at = outcomes.findIndex(({ schedule }) => schedule === failing);
    if (at >= 0 && at < played) {
      const button = make('button', `play outcome ${at}`);
      button.addEventListener('click', () => choose(at));
      li.append(' ', button);
    }
    return li;
  };

  const beginSurvey = (played) => {
    const { numbers, outcomes, properties } = surveyed();
    find('numbers').append(...numbers.map((line) => make('li', line)));
    find('properties').append(...properties.map((line) => propertyItem(line, outcomes, played)));
    find('outcomes').append(...outcomes.map((outcome, at) => outcomeItem(outcome, at, played)));
    if (played < outcomes.length) {
      find('unplayed').textContent = `The outcomes from ${played} on are listed alone. `
        + 'inroot draw --html --schedule SCHEDULE plays each.';
      find('unplayed').hidden = false;
    }
    find('survey').hidden = false;
    find('outcome-keys').hidden = false;
    find('link-form').textContent = '#3/12';
    find('link-meaning').textContent = 'after event 12 of outcome 3';
    if (played > 0) {
      choose(0);
    }
  };

  const begin = () => {
    const played = document.querySelectorAll('script.report').length;
    document.title = isSurvey ? 'All schedules of calls below a root' : 'A run of calls below a root';
    document.querySelector('h1').textContent = document.title;
    find('moment').addEventListener('input', show);
    find('root').addEventListener('change', show);
    find('text').open = false;
    find('legend').hidden = played === 0;
    find('legend').open = !isSurvey && matchMedia('(min-width: 50rem)').matches;
    find('shown').hidden = played === 0;
    if (isSurvey) {
      beginSurvey(played);
    } else {
      openRun(0);
    }
    if (played > 0) {
      for (const [name, step] of Object.entries(steps)) {
        find(name).addEventListener('click', step);
      }
      document.addEventListener('keydown', onKey);
      window.addEventListener('hashchange', follow);
      follow();
    }
    (document.querySelector('#outcomes input') || find('moment')).focus();
  };

  begin();
})();
</script>
</body>
</html>
";
