//! The template of a page, docs/pages/template.html, in two parts: the data stand between them.

/// The template up to the data.
pub const BEFORE: &str = r##"<!doctype html>
<html lang="en">
<meta charset="utf-8">
<meta http-equiv="Content-Security-Policy" content="default-src 'none'; script-src 'sha256-tDunRT/mupeC+eOMl0AzebSZYvAuI5YfEjn1fcSoAxk='; style-src 'sha256-aUvAFcMQLcSWqonon7M+UselXIWH8RXNegf/IyJqMS4='; base-uri 'none'; form-action 'none'; require-trusted-types-for 'script'">
<meta name="viewport" content="width=device-width, initial-scale=1">
<title>A session of mounts</title>
<style>
:root {
  color-scheme: light dark; --ink: in srgb, CanvasText; --mark: #2374e1; --code: 13px/1.6 ui-monospace, monospace;
  --line: color-mix(var(--ink) 22%, Canvas); --dim: color-mix(var(--ink) 66%, Canvas);
  --came: color-mix(in srgb, var(--mark) 20%, Canvas); --differs: color-mix(in srgb, #e8a200 28%, Canvas); --went: color-mix(var(--ink) 14%, Canvas);
}
* { box-sizing: border-box }
body { margin: 0; height: 100vh; display: grid; grid-template: auto 1fr / 21rem 1fr; font: 14px/1.5 system-ui }
header { grid-column: 1 / -1; display: flex; flex-wrap: wrap; gap: .4rem; align-items: center; padding: .4rem 1rem; border-bottom: 1px solid var(--line) }
h1 { font-size: 1rem; margin: 0 auto 0 0 }
button { font: inherit; color: inherit }
ol, ul, p { margin: 0; padding: 0; list-style: none }
.long { display: inline-block; max-width: 40ch; max-height: 5em; overflow: auto; border: 1px dashed var(--line) }

nav { overflow: auto; border-right: 1px solid var(--line); font: var(--code); overflow-wrap: anywhere }
nav a { display: grid; grid-template-columns: 2rem 1fr auto; gap: .5rem; padding: 0 .7rem; color: inherit; text-decoration: none }
nav a[aria-current] { background: var(--came); box-shadow: inset 3px 0 var(--mark) }
summary { padding: 0 .7rem }
.refused, #reason { color: light-dark(#b42318, #ff8a80) }

main { overflow: auto; padding: 1rem; overflow-wrap: anywhere }
#note { max-width: 70ch; margin-bottom: .8rem; padding-left: .8rem; border-left: 3px solid var(--mark); font-size: 16px; white-space: pre-line }
nav, #line { white-space: pre-wrap }
#note:empty { display: none }
#line { font: var(--code); font-weight: 600 }
#words { height: 4.6em; overflow: auto; margin: .3rem 0 1rem }

#spaces { display: flex; flex-wrap: wrap; gap: .9rem 2.2rem; align-items: start; position: relative; padding-right: 2rem }
/* many cards: a grid takes half the time for layout */
#spaces.many { display: grid; grid-template-columns: repeat(auto-fill, minmax(min(25rem, 100%), 1fr)) } .many th { display: none }
section { border: 1px solid var(--line); border-radius: 8px; max-width: 100% }
section.changed { border: 2px solid var(--mark) }
h2 { margin: 0; font-size: .9rem }
h2 button { display: flex; gap: 1rem; width: 100%; border: 0; background: none; padding: .2rem .6rem }
h2 small { margin-left: auto }
table { border-collapse: collapse; width: 100%; font: var(--code) }
th, footer, small { font: 12px system-ui }
.quiet, summary, th, footer, small, .id, .source, .type, .branch { color: var(--dim) }
td, th { padding: 0 .5rem; vertical-align: top; text-align: left }
.id { text-align: right; white-space: nowrap } .source, .type, .options { min-width: 7ch }
.at { min-width: 6rem } .branch { white-space: pre }
.mount td { background: var(--came) } .umount td { background: var(--went) } .umount .at { text-decoration: line-through }
.move td, .remount td, .change td { background: var(--differs) }
.group { padding: 0 .35em; margin-right: .3em; border: 2px solid hsl(var(--hue) 60% 45%); border-radius: 4px; white-space: nowrap }
.shared { background: hsl(var(--hue) 65% 27%); color: #fff } .master { border-style: dashed }
.lit { outline: 3px solid var(--mark) }
svg { position: absolute; inset: 0; width: 100%; height: 100%; overflow: visible; pointer-events: none }
path { fill: none; stroke: hsl(var(--hue) 60% 45%); stroke-width: 1.8 } .slave { stroke-dasharray: 5 4 }
footer { margin-top: 1rem }

@media screen and (max-width: 50rem) {
  body { grid-template: auto 9rem 1fr / 1fr }
  main { padding: .6rem } #spaces { padding-right: 1rem } table td, th { padding: 0 .2rem } .type { display: none }
}
/* on paper: the step, its picture as on the screen, so that the arrows fit */
@media print {
  header, nav, footer { display: none }
  body { display: block } main { overflow: visible }
  #spaces { width: calc(var(--width) * 1px); zoom: calc(660 / var(--width)); print-color-adjust: exact }
}
</style>
<header>
  <h1 id="title"></h1>
  <button id="first">First</button><button id="back">Back</button>
  <span id="where"></span>
  <button id="next">Next</button><button id="last">Last</button>
  <button id="play">Play</button>
  <label><input type="checkbox" id="everything"> all rows</label>
</header>
<nav aria-label="Steps"><ol id="steps"></ol></nav>
<main tabindex="0" aria-label="The step">
  <p id="note"></p>
  <div role="status"><p id="line"></p><p id="answer"></p><p id="reason"></p></div>
  <ul id="words"></ul>
  <div id="spaces"></div>
  <footer>+ came, ~ differs, − went. A group is filled at its members, dashed at its slaves. Lines join peers, arrows lead to slaves: for changes,
    and for the group under the pointer or in focus. Arrow keys (Shift skips), Home, End, Space; a heading opens its namespace.</footer>
</main>
<script type="application/json" id="session">"##;

/// The template behind the data.
pub const BEHIND: &str = r##"</script>
<script>
"use strict";
const LONG = 150;   // a longer name stands in a box of its own
const ROOM = 400;   // changes of a step of which the rows are shown
const SMALL = 80;   // mounts of which all rows are shown at first
const LINES = 10;   // changes of a namespace that are told one by one

const byId = id => document.getElementById(id), spaces = byId("spaces"), everything = byId("everything");
const session = JSON.parse(byId("session").textContent), steps = session.steps;
function make(tag, className, ...children) {
  const element = document.createElement(tag);
  element.className = className;
  element.append(...children);
  return element;
}

// ---- Names: what cannot be seen, or could deceive, is an escape.
const UNSEEN = /[\p{C}\p{Z}\p{Default_Ignorable_Code_Point}\u2800\ufffd\\]|(?<![\p{L}\p{N}\p{M}])\p{M}|(?<=\p{M}{3})\p{M}/gu;
const OF_LINES = { " ": "\\040", "\t": "\\011", "\n": "\\012", "\\": "\\134" };
// Whole lines have their escapes already, and spaces between words.
function visible(text, isLine) {
  return text.replace(UNSEEN, one => isLine && " \\".includes(one) ? one : OF_LINES[one] ?? `\\u{${one.codePointAt(0).toString(16)}}`);
}
// Each part of a path is isolated: letters written from the right cannot reorder it.
function named(text, isLine) {
  const seen = visible(text, isLine), isPlain = /^[ -~]*$/;
  if (isPlain.test(seen) && seen.length <= LONG) return seen;
  return make("span", seen.length > LONG ? "long" : "", ...seen.split(/([/ ])/).map(part => isPlain.test(part) ? part : make("bdi", "", part)));
}
function spaceName(space) {
  const name = session.names?.[space];
  return `namespace ${space}` + (name ? ` (${visible(name, true)})` : "");
}

// ---- The mirror: the tables after the first `at` steps.
const world = new Map();   // of each namespace a Map of its mounts by number
let at = Infinity;
function apply(post) {
  const table = world.get(post.namespace) ?? new Map();
  world.set(post.namespace, table.set(post.id, post));
  if (post.event == "umount") table.delete(post.id);
  if (!table.size) world.delete(post.namespace);
}
function moveTo(number) {
  if (number < at) {
    world.clear();
    for (const table of session.opening) world.set(table.namespace, new Map(table.filesystems.map(mount => [mount.id, mount])));
    at = 0;
  }
  for (; at < number; at += 1) steps[at].posts.forEach(apply);
}
const current = () => steps[at - 1] ?? { line: "Before the first", answer: "", posts: [] };
const postsBySpace = () => Map.groupBy(current().posts, post => post.namespace);

// ---- Words: what a step did.
const signOf = post => ({ mount: "+", umount: "−" })[post.event] ?? "~";
const counted = posts => [...Map.groupBy(posts, signOf)].map(([sign, some]) => sign + some.length).join(" ");
function propagation(mount) {
  const words = ["shared", "master", "propagate_from"].filter(key => key in mount).map(key => `${key}:${mount[key]}`);
  if (mount.propagation.includes("unbindable")) words.push("unbindable");
  return words.join(" ") || "private";
}
const isRegrouped = post => !post.old || propagation(post.old) != propagation(post);
const allMounts = () => [...world.values()].flatMap(table => [...table.values()]);
// Of each group the member with the lowest number.
const firstMembers = mounts => new Map(mounts.filter(mount => mount.shared).sort((a, b) => b.id - a.id).map(mount => [mount.shared, mount]));
// "copy": where the line made one mount, all others that came are copies of it.
function relation(post, step, members) {
  const isCopy = post.event == "mount" && /^(mount|bind) /.test(step.line);
  const to = (group, word) => {
    const other = members.get(group) ?? post;
    return other.id == post.id ? [] : `a ${word} ${isCopy && step.posts.includes(other) ? "copy " : ""}of ${other.id}`;
  };
  return [to(post.master, "slave"), to(post.shared, "peer")].flat().join(", ");
}
function sentence(post, step, members) {
  const { old, event } = post, item = make("li", "", `${signOf(post)} ${post.id} `, named(post.target), ` in ${spaceName(post.namespace)}`);
  const say = (before, now) => before == now || item.append(`: ${before} → ${now}`);
  if (event == "move") item.append(": from ", named(old.target));
  if (old) {
    say("on " + old.parent, "on " + post.parent);
    say(old.options, post.options);
    say(propagation(old), propagation(post));
  }
  const related = isRegrouped(post) && relation(post, step, members);
  if (related) item.append(event == "umount" ? ": was " : ": ", related);
  return item;
}
function drawWords() {
  const step = current();
  const members = new Map([...firstMembers(allMounts()), ...firstMembers(step.posts.filter(post => !post.old || post.event == "move"))]);
  for (const id of ["line", "answer", "reason"]) byId(id).replaceChildren(named(step[id] ?? "", true));
  byId("note").textContent = visible(step.note ?? "", true).replaceAll("\\012", "\n");
  byId("words").replaceChildren(...[...postsBySpace()].flatMap(([space, posts]) =>
    posts.length > LINES ? make("li", "", `${counted(posts)} in ${spaceName(space)}`) : posts.map(post => sentence(post, step, members))));
}

// ---- The picture: a card for each namespace.
const opened = new Map();   // by a press, all rows of a namespace
// The mounts as a tree: [mount, branch in front of it].
function treeOf(mounts) {
  const below = new Map(mounts.map(mount => [mount.id, []])), rows = [];
  const isRoot = mount => mount.parent == mount.id || !below.has(mount.parent);
  for (const mount of mounts) if (!isRoot(mount)) below.get(mount.parent).push(mount);
  const visit = (mount, branch, lead) => {
    rows.push([mount, branch]);
    below.get(mount.id).forEach((child, i, all) => {
      const [fork, line] = i == all.length - 1 ? ["└─", "  "] : ["├─", "│ "];
      visit(child, lead + fork, lead.length < 40 ? lead + line : lead);
    });
  };
  for (const mount of mounts) if (isRoot(mount)) visit(mount, "", "");
  return rows;
}
function withAncestors(posts, mounts) {
  const parents = new Map(mounts.map(mount => [mount.id, mount.parent])), found = new Set();
  for (const post of posts) for (let id = post.id; parents.has(id) && !found.has(id); id = parents.get(id)) found.add(id);
  return found;
}
function groupsOf(mount) {
  return propagation(mount).split(" ").map(word => {
    const [kind, group] = word.split(":"), chip = make("span", "group " + kind, word);
    if (kind != "shared" && kind != "master") return word == "private" ? "" : word;
    chip.tabIndex = 0;
    chip.dataset.group = group;
    chip.style.setProperty("--hue", group * 137.5);
    return chip;
  });
}
function rowOf(mount, branch, post) {
  const row = make("tr", post ? post.event + (isRegrouped(post) ? " new" : "") : "");
  const add = (name, ...children) => row.appendChild(make("td", name, ...children));
  add("sign", post ? signOf(post) : "");
  add("id", mount.id).title = "on " + mount.parent;
  add("at", make("span", "branch", branch), named(mount.target));
  add("source", named(mount.source)).title = "device " + mount["maj:min"];
  add("type", named(mount.fstype));
  add("options", mount.options);
  add("propagation", ...groupsOf(mount));
  return row;
}
function cardOf(space, posts) {
  const isOpen = opened.get(space) ?? everything.checked;
  const table = world.get(space) ?? new Map();
  const mounts = [...table.values(), ...posts.filter(post => post.event == "umount")].sort((a, b) => a.id - b.id);
  const wanted = withAncestors(isOpen ? mounts : current().posts.length > ROOM ? [] : posts, mounts);
  const rows = wanted.size ? treeOf(mounts).filter(([mount]) => wanted.has(mount.id)) : [];
  const heading = make("button", "", spaceName(space), make("small", "", `${counted(posts)} mounts: ${table.size}`));
  const card = make("section", posts.length ? "changed" : "", make("h2", "", heading));
  const head = ["", "id", "at", "source", "type", "options", "propagation"].map(word => make("th", word, word));
  const body = rows.map(([mount, branch]) => rowOf(mount, branch, posts.find(post => post.id == mount.id)));
  if (body.length) card.append(make("table", "", make("tr", "", ...head), ...body));
  card.dataset.space = space;
  heading.ariaExpanded = isOpen;
  heading.onclick = () => {
    opened.set(space, !isOpen);
    drawSpaces();
  };
  return card;
}
function drawSpaces() {
  const changes = postsBySpace(), focused = document.activeElement.closest("section")?.dataset.space;
  const numbers = [...new Set([...world.keys(), ...changes.keys()])].sort((a, b) => a - b);
  const cards = numbers.map(space => cardOf(space, changes.get(space) ?? []));
  spaces.className = cards.length > 8 ? "many" : "";
  spaces.replaceChildren(...cards, arrows);
  spaces.querySelector(`[data-space="${focused}"] button`)?.focus({ preventScroll: true });
  drawArrows();
}

// ---- Arrows: for changes, and for the group under the pointer or in focus.
const draw = tag => document.createElementNS("http://www.w3.org/2000/svg", tag), arrows = draw("svg");
arrows.ariaHidden = true;
let touched;   // that group, as text
// What to draw, as [from, to, kind, group].
function links() {
  const isNew = chip => chip.matches(".new *"), isDrawn = chip => isNew(chip) || chip.dataset.group == touched;
  const chips = kind => [...spaces.querySelectorAll("tr:not(.umount) ." + kind)], found = [];
  const members = Map.groupBy(chips("shared"), chip => chip.dataset.group);
  for (const [group, peers] of members) {
    const drawn = peers.filter(isDrawn);
    if (drawn.length == 1) drawn.unshift(...peers.filter(peer => peer != drawn[0]).slice(0, 1));
    for (let i = 1; i < drawn.length; i += 1) found.push([drawn[i - 1], drawn[i], "peer", group]);
  }
  for (const slave of chips("master").filter(isDrawn)) {
    const group = slave.dataset.group, shown = members.get(group);
    if (shown) found.push([shown.find(isNew) ?? shown[0], slave, "slave", group]);
  }
  return found;
}
// To the left side of a card further right, else round to the right end of the other.
function shapeOf(from, to, kind, box) {
  const [a, b, cardA, cardB] = [from, to, from.closest("section"), to.closest("section")].map(e => e.getBoundingClientRect());
  const isRight = cardB.left >= cardA.right, out = isRight ? -6 : 6;
  const x = a.right - box.left, y = (a.top + a.bottom) / 2 - box.top;
  const u = (isRight ? cardB.left : b.right + 2) - box.left, v = (b.top + b.bottom) / 2 - box.top;
  const bend = isRight ? -40 : Math.max(cardA.right, cardB.right) - box.left - Math.min(x, u) + 18;
  const head = kind == "slave" ? `m${out} -4 l${-out} 4 l${out} 4` : "";
  return `M${x} ${y} C${x + Math.abs(bend)} ${y} ${u + bend} ${v} ${u} ${v} ${head}`;
}
function drawArrows() {
  const box = spaces.getBoundingClientRect();
  spaces.style.setProperty("--width", box.width);
  const shapes = links().map(([from, to, kind, group]) => [shapeOf(from, to, kind, box), kind, group]);
  arrows.replaceChildren(...shapes.map(([shape, kind, group]) => {
    const path = draw("path");
    path.setAttribute("d", shape);
    path.setAttribute("class", kind);
    path.style.setProperty("--hue", group * 137.5);
    return path;
  }));
  for (const chip of spaces.querySelectorAll(".group")) chip.classList.toggle("lit", chip.dataset.group == touched);
}
function touch(event) {
  const group = event.target.dataset.group ?? document.activeElement.dataset.group;
  if (group == touched) return;
  touched = group;
  drawArrows();
}

// ---- The list of steps; three quiet ones or more are folded.
const stepLinks = [];
const isQuiet = step => !step.posts.length && !step.note && step.answer.startsWith("ok");
function stepItem(step, number) {
  const kind = step.answer.startsWith("no ") ? "refused" : step.posts.length ? "" : "quiet";
  const link = make("a", kind, make("span", "", number), named(step.line || "…", true), make("span", "", named(step.answer, true)));
  link.href = "#" + number;
  stepLinks[number] = link;
  return make("li", "", link);
}
function listSteps() {
  let run = [];
  steps.forEach((step, i) => {
    run.push(stepItem(step, i + 1));
    if (isQuiet(step) && i + 1 < steps.length && isQuiet(steps[i + 1])) return;
    const words = new Set(steps.slice(i + 1 - run.length, i + 1).map(one => one.line.split(" ")[0]));
    const folded = make("details", "", make("summary", "", [...words].join(", "), ` (${run.length})`), make("ol", "", ...run));
    byId("steps").append(...run.length < 3 ? run : [make("li", "", folded)]);
    run = [];
  });
}
function markStep(isCurrent) {
  const link = stepLinks[at], run = link?.closest("details");
  if (run) run.open = isCurrent;
  if (!link) return;
  link.ariaCurrent = isCurrent ? "step" : null;
  if (isCurrent) link.scrollIntoView({ block: "nearest" });
}

// ---- From step to step.
function show(number) {
  markStep(false);
  moveTo(Math.max(0, Math.min(steps.length, number)));
  markStep(true);
  byId("where").textContent = `${at} of ${steps.length}`;
  drawWords();
  drawSpaces();
}
function go(number) {
  show(number);
  history.replaceState(null, "", "#" + at);
}
const linked = () => Number(location.hash.match(/^#(\d{1,9})$/)?.[1] ?? 0);
function overQuiet(way) {
  let number = at + way;
  while (number > 0 && number < steps.length && isQuiet(steps[number - 1])) number += way;
  return number;
}
let timer = 0;
function play(isOn) {
  clearTimeout(timer);
  timer = 0;
  if (isOn) go(at == steps.length ? 0 : overQuiet(1));
  if (isOn && at < steps.length) timer = setTimeout(play, 1800 + 40 * (current().note ?? "").length, true);
  byId("play").textContent = timer ? "Pause" : "Play";
}
function onKey(event) {
  const way = { ArrowLeft: -1, ArrowUp: -1, ArrowRight: 1, ArrowDown: 1 }[event.key], over = tag => event.target.closest?.(tag);
  if (event.ctrlKey || event.altKey || event.metaKey) return;
  if (event.key == " " && !over("button, input, summary")) play(!timer);
  else if (event.key == "Home") go(0);
  else if (event.key == "End") go(steps.length);
  else if (way && !(over("main") && /Up|Down/.test(event.key))) go(event.shiftKey ? overQuiet(way) : at + way);
  else return;
  if (event.key != " ") play(false);
  event.preventDefault();
}
document.title = byId("title").textContent = visible(session.title ?? document.title, true);
listSteps();
moveTo(steps.length);
everything.checked = allMounts().length <= SMALL;
everything.onchange = () => {
  opened.clear();
  drawSpaces();
};
const buttons = { first: () => go(0), back: () => go(at - 1), next: () => go(at + 1), last: () => go(steps.length), play: () => play(!timer) };
for (const id in buttons) byId(id).onclick = buttons[id];
for (const kind of ["mouseover", "mouseleave", "focusin", "focusout"]) spaces.addEventListener(kind, touch);
addEventListener("keydown", onKey);
addEventListener("hashchange", () => show(linked()));
addEventListener("resize", drawArrows);
show(linked());
</script>
</html>
"##;
